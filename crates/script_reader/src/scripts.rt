//! The commands of a script, one after the other.
ghost use Rattle.std.specs.Prelude.{◌≡◌};
ghost use Rattle.script_reader.specs.code.Scripts.{ReadsScript, ScriptAt, last_step, nothing_said};

use crate::Step;
use crate::command::read_command;
use crate::progress::answer;
use lexemes::{OPEN, code_at, next_at};
use script::answers::{ACCEPTED, SHAPE};
use script::{Command, Progress};

// What is said before the first command.
pub fn nothing_said() -> Progress
    ensures { result ≡ nothing_said }
{
    Progress {
        logic: false,
        weights: false,
        ended: false,
        variables: 0,
        defined: 0,
        functions: 0,
        constraints: 0,
        assumptions: 0,
        nodes: 0,
        forms: 0,
    }
}

// The answer at the end of a script: 5 where there was no `check-synth`.
fn end_of_script(progress: Progress, nowhere: usize) -> Step
    ensures { result ≡ last_step nowhere progress.ended progress }
{
    if progress.ended {
        return answer(ACCEPTED, nowhere, 0, progress);
    }
    answer(SHAPE, nowhere, 0, progress)
}

// Reads the commands of a script of so many words, up to the first faulty one.
pub fn read_script(
    text: &[u8],
    lexemes: &[u64],
    names: &mut [u8],
    raw: &mut [u64],
    places: &mut [u64],
    nodes: &mut [u64],
    forms: &mut [u64],
    nowhere: usize,
) -> Step
    requires { ScriptAt text.now lexemes.now names.old raw.old places.old nodes.old forms.old nowhere }
    ensures { ReadsScript text.now lexemes.now names.old raw.old places.old nodes.old
        forms.old nowhere names.new places.new nodes.new forms.new result }
{
    let mut progress = nothing_said();
    let mut at = 0;
    while at < nowhere {
        if code_at(lexemes, at) != OPEN {
            return answer(SHAPE, at, 0, progress);
        }
        let command = Command {
            progress,
            at,
            nowhere,
        };
        let step = read_command(text, lexemes, names, raw, places, nodes, forms, command);
        if step.number != 0 {
            return step;
        }
        progress = step.progress;
        at = next_at(lexemes, at);
    }
    end_of_script(progress, nowhere)
}
