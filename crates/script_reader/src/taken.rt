//! The second number of a refusal: where a name that is taken was declared.
ghost use Rattle.std.specs.Prelude.{◌≡◌};
ghost use Rattle.written_sorts.specs.code.Headers.{HeaderAt};
ghost use Rattle.script.specs.code.Answers.{name_answer};
ghost use Rattle.script.specs.code.Taken.{scope_within};
ghost use Rattle.script_reader.specs.code.Taken.{CountsArguments, FindsSecond, FindsTaken, Refused};

use forest::limits;
use lexemes::codes::{DECLARE_VAR, DEFINE_FUN, SYNTH_FUN};
use lexemes::items::count_items;
use lexemes::{code_at, next_at};
use names::Scope;
use names::earlier::earlier_place;
use names::table::{ARGUMENTS, DEFINED, FUNCTIONS, OWN_ARGUMENTS, VARIABLES};
use script::answers::NAME;
use script::{Command, Progress, Verdict};
use synth_fun::name_tests::header_of;

// The names in scope within a command, which has so many arguments from row `first` on.
fn scope_within(progress: Progress, first: usize, arguments: usize) -> Scope
    ensures { result ≡ scope_within progress first arguments }
{
    Scope {
        variables: progress.variables,
        defined: progress.defined,
        functions: progress.functions,
        first,
        arguments,
    }
}

// How many arguments the command with a header at a word has.
fn arguments_in(lexemes: &[u64], at: usize) -> usize
    requires { HeaderAt lexemes.now at }
    ensures { CountsArguments lexemes.now at result }
{
    let arguments = next_at(lexemes, at + 2);
    let close = next_at(lexemes, arguments) - 1;
    count_items(lexemes, arguments + 1, close)
}

// The word at which the name that a command's new name at a word takes was declared; 0 where no new name stands there or it takes none.
fn taken_place(lexemes: &[u64], names: &[u8], command: Command, place: usize) -> usize
    requires { Refused lexemes.now names.now command.progress command.at command.nowhere }
    ensures { FindsTaken lexemes.now names.now command place result }
{
    let progress = command.progress;
    let code = code_at(lexemes, command.at + 1);
    if code == DECLARE_VAR {
        let scope = scope_within(progress, ARGUMENTS, 0);
        return earlier_place(names, scope, VARIABLES + progress.variables, 0, place);
    }
    if code == DEFINE_FUN {
        let scope = scope_within(progress, ARGUMENTS, arguments_in(lexemes, command.at));
        return earlier_place(names, scope, DEFINED + progress.defined, 0, place);
    }
    if code == SYNTH_FUN {
        let first = OWN_ARGUMENTS + limits::ARGUMENTS * progress.functions;
        let header = header_of(lexemes, command.at);
        let scope = scope_within(progress, first, header.arguments);
        return earlier_place(
            names,
            scope,
            FUNCTIONS + progress.functions,
            header.listed,
            place,
        );
    }
    0
}

// The word of the second number of a command's verdict: that of an earlier declaration where it is refused for a name, else 0.
pub fn second_of(lexemes: &[u64], names: &[u8], command: Command, verdict: Verdict) -> usize
    requires { verdict.number ≡ name_answer → Refused lexemes.now names.now command.progress command.at command.nowhere }
    ensures { FindsSecond lexemes.now names.now command verdict result }
{
    if verdict.number != NAME {
        return 0;
    }
    taken_place(lexemes, names, command, verdict.place)
}
