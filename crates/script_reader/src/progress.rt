//! What a command says, in numbers.
ghost use Rattle.std.specs.Prelude.{cond, ◌≡◌, ◌+◌, ◌≤◌};
ghost use Rattle.forest.specs.Limits.{script_words};
ghost use Rattle.script_reader.specs.code.Commands.{said_by};
ghost use Rattle.script_reader.specs.code.Progress.{Few, Stepped, after_logic_by, out_of_place_by};

use crate::Step;
use lexemes::codes::{
    ASSUME, CHECK_SYNTH, CONSTRAINT, DECLARE_VAR, DEFINE_FUN, SET_FEATURE, SET_LOGIC, SYNTH_FUN,
};
use script::answers::ACCEPTED;
use script::{Progress, Verdict};

// Whether no command has passed but, perhaps, the logic line.
fn after_logic(progress: Progress) -> bool
    ensures { result ≡ after_logic_by progress }
{
    !progress.weights
        & (progress.variables == 0)
        & (progress.defined == 0)
        & (progress.functions == 0)
        & (progress.constraints == 0)
        & (progress.assumptions == 0)
}

// Whether a command of the code is out of place.
pub fn out_of_place(progress: Progress, code: u64) -> bool
    ensures { result ≡ out_of_place_by progress code }
{
    progress.ended
        | (!progress.logic & (code != SET_LOGIC))
        | (progress.logic & (code == SET_LOGIC))
        | ((code == CHECK_SYNTH) & (progress.functions == 0))
        | ((code == SET_FEATURE) & !after_logic(progress))
}

// A number that grows by some where the test says so.
fn grown(count: usize, grows: bool, by: usize) -> usize
    requires { cond grows (count + by) count ≤ script_words }
    ensures { result ≡ cond grows (count + by) count }
{
    if grows {
        return count + by;
    }
    count
}

// What is said after a command of the code, which takes so many rows.
fn said(progress: Progress, code: u64, rows: usize) -> Progress
    requires { Few (said_by progress code rows) }
    ensures { result ≡ said_by progress code rows }
{
    let term = (code == DEFINE_FUN) | (code == CONSTRAINT) | (code == ASSUME);
    Progress {
        logic: progress.logic | (code == SET_LOGIC),
        weights: progress.weights | (code == SET_FEATURE),
        ended: progress.ended | (code == CHECK_SYNTH),
        variables: grown(progress.variables, code == DECLARE_VAR, 1),
        defined: grown(progress.defined, code == DEFINE_FUN, 1),
        functions: grown(progress.functions, code == SYNTH_FUN, 1),
        constraints: grown(progress.constraints, code == CONSTRAINT, 1),
        assumptions: grown(progress.assumptions, code == ASSUME, 1),
        nodes: grown(progress.nodes, term, rows),
        forms: grown(progress.forms, code == SYNTH_FUN, rows),
    }
}

// The answer of a number at a word, with the word of its second number.
pub fn answer(number: usize, place: usize, second: usize, progress: Progress) -> Step
    ensures { result ≡ record { number = number; place = place; second = second; progress = progress } }
{
    Step {
        number,
        place,
        second,
        progress,
    }
}

// The step that a command of the code makes by its verdict and the word of its second number.
pub fn step_by(progress: Progress, code: u64, verdict: Verdict, second: usize) -> Step
    requires { verdict.number ≡ 0 → Few (said_by progress code verdict.rows) }
    ensures { Stepped progress code verdict second result }
{
    if verdict.number != 0 {
        return answer(verdict.number, verdict.place, second, progress);
    }
    answer(
        ACCEPTED,
        verdict.place,
        second,
        said(progress, code, verdict.rows),
    )
}
