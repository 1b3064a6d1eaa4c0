//! The command, with the test of its limits before the others.
ghost use Rattle.synth_fun.specs.code.Synthesizing.{Synthesizing};
ghost use Rattle.synth_fun.specs.code.Command.{Synthesizes};

use crate::name_tests::names_tested;
use forest::limits::FUNCTIONS;
use forest::numbers::least;
use grammars::read::grammar_past;
use headers::heads::head_past;
use script::answers::{PAST_LIMIT, verdict};
use script::places::{OWN_RULES, rules_place};
use script::{Command, Verdict};

// The `synth-fun` at a word: its name, signature, arguments, rules and forms stand in the tables where it passes.
pub fn synth_fun(
    text: &[u8],
    lexemes: &[u64],
    names: &mut [u8],
    raw: &mut [u64],
    places: &mut [u64],
    forms: &mut [u64],
    command: Command,
) -> Verdict
    requires { Synthesizing text.now lexemes.now names.old raw.old places.old forms.old
        command.progress command.at command.nowhere }
    ensures { Synthesizes text.now lexemes.now names.old raw.old places.old
        forms.old command names.new raw.new places.new forms.new result }
{
    let at = command.at;
    let nowhere = command.nowhere;
    let functions = command.progress.functions;
    if functions >= FUNCTIONS {
        return verdict(PAST_LIMIT, at, 0);
    }
    let first = rules_place(functions);
    let end = first + OWN_RULES;
    let gathered = grammar_past(lexemes, at, raw, &mut places[first..end], nowhere);
    let head = head_past(lexemes, at, nowhere);
    let past = least(head, gathered.place);
    if past < nowhere {
        return verdict(PAST_LIMIT, past, 0);
    }
    names_tested(text, lexemes, names, raw, places, forms, command, gathered)
}
