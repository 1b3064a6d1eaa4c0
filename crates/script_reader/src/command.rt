//! Commands, each with its tests in their order.
ghost use Rattle.script_reader.specs.code.Command.{Commanded, ReadsCommand, Shaped, TestsCommand};

use crate::Step;
use crate::progress::{answer, out_of_place, step_by};
use crate::taken::second_of;
use commands::declare_var::declare_var;
use commands::define_fun::define_fun;
use commands::state::state;
use lexemes::code_at;
use lexemes::codes::{ASSUME, CONSTRAINT, DECLARE_VAR, DEFINE_FUN, SYNTH_FUN};
use script::answers::{ACCEPTED, NOT_CARRIED, SHAPE, verdict};
use script::{Command, Verdict};
use shapes::carried::not_carried;
use shapes::commands::command_shape;
use synth_fun::command::synth_fun;

// Tests a command that is of its shape: 4, 7, 8 and 9; one that says nothing but itself passes.
fn test_command(
    text: &[u8],
    lexemes: &[u64],
    names: &mut [u8],
    raw: &mut [u64],
    places: &mut [u64],
    nodes: &mut [u64],
    forms: &mut [u64],
    command: Command,
) -> Verdict
    requires { Shaped text.now lexemes.now names.old raw.old places.old nodes.old forms.old
        command.progress command.at command.nowhere }
    ensures { TestsCommand text.now lexemes.now names.old raw.old places.old nodes.old
        forms.old command names.new places.new nodes.new forms.new result }
{
    let code = code_at(lexemes, command.at + 1);
    match code {
        DECLARE_VAR => declare_var(text, lexemes, names, command),
        DEFINE_FUN => define_fun(text, lexemes, names, raw, places, nodes, command),
        SYNTH_FUN => synth_fun(text, lexemes, names, raw, places, forms, command),
        CONSTRAINT => state(text, lexemes, names, raw, places, nodes, command, false),
        ASSUME => state(text, lexemes, names, raw, places, nodes, command, true),
        _ => verdict(ACCEPTED, command.at, 0),
    }
}

// Reads a command: 6, 5, then 4, 7, 8 and 9 by its own tests.
pub fn read_command(
    text: &[u8],
    lexemes: &[u64],
    names: &mut [u8],
    raw: &mut [u64],
    places: &mut [u64],
    nodes: &mut [u64],
    forms: &mut [u64],
    command: Command,
) -> Step
    requires { Commanded text.now lexemes.now names.old raw.old places.old nodes.old forms.old
        command.progress command.at command.nowhere }
    ensures { ReadsCommand text.now lexemes.now names.old raw.old places.old nodes.old
        forms.old command names.new places.new nodes.new forms.new result }
{
    let progress = command.progress;
    let at = command.at;
    if not_carried(lexemes, at, progress.weights) {
        return answer(NOT_CARRIED, at, 0, progress);
    }
    let code = code_at(lexemes, at + 1);
    if !command_shape(lexemes, at) | out_of_place(progress, code) {
        return answer(SHAPE, at, 0, progress);
    }
    let tested = test_command(text, lexemes, names, raw, places, nodes, forms, command);
    let second = second_of(lexemes, names, command, tested);
    step_by(progress, code, tested, second)
}
