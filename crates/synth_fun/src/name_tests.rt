//! The test of the names of the command, before those of its sorts.
ghost use Rattle.written_sorts.specs.code.Headers.{SynthFunAt};
ghost use Rattle.synth_fun.specs.code.NameTests.{FindsNames, Gathering, ReadsHeader, TestsNames, Unnamed};

use crate::sort_tests::sorts_tested;
use crate::{Header, Parts};
use forest::limits::ARGUMENTS;
use forest::numbers::least;
use grammars::read::grammar_names;
use headers::heads::head_names;
use lexemes::items::count_items;
use lexemes::next_at;
use names::table::OWN_ARGUMENTS;
use names::{Scope, Target};
use script::answers::{NAME, verdict};
use script::{Command, Verdict};
use term_nodes::Gathered;
use written_sorts::places::sort_of;

// How many arguments and non-terminals the `synth-fun` at a word declares, and the sort of its result.
pub fn header_of(lexemes: &[u64], at: usize) -> Header
    requires { SynthFunAt lexemes.now at }
    ensures { ReadsHeader lexemes.now at result }
{
    let arguments = next_at(lexemes, at + 2);
    let result = next_at(lexemes, arguments);
    let declared = next_at(lexemes, result);
    let close = next_at(lexemes, declared) - 1;
    let counted = count_items(lexemes, arguments + 1, result - 1);
    let listed = count_items(lexemes, declared + 1, close);
    let sort = sort_of(lexemes, result);
    Header {
        arguments: counted,
        listed,
        result: sort,
    }
}

// Puts the names of the `synth-fun` at a word into their rows and writes the forms of its rules, which are gathered; returns the least word at fault in a name.
fn names_place(
    text: &[u8],
    lexemes: &[u64],
    names: &mut [u8],
    raw: &mut [u64],
    forms: &mut [u64],
    command: Command,
    arguments: usize,
    rows: usize,
) -> usize
    requires { Unnamed text.now lexemes.now names.old raw.old forms.old command.progress arguments rows
        command.at command.nowhere }
    ensures { FindsNames text.now lexemes.now names.old raw.old forms.old
        command arguments rows names.new raw.new forms.new result }
{
    let at = command.at;
    let nowhere = command.nowhere;
    let progress = command.progress;
    let mut scope = Scope {
        variables: progress.variables,
        defined: progress.defined,
        functions: progress.functions,
        first: OWN_ARGUMENTS + ARGUMENTS * progress.functions,
        arguments: 0,
    };
    let head = head_names(text, lexemes, names, scope, true, at, nowhere);
    scope.functions += 1;
    scope.arguments = arguments;
    let target = Target {
        count: rows,
        base: progress.forms,
        nowhere,
    };
    let grammar = grammar_names(text, lexemes, names, raw, forms, scope, at, target);
    least(head, grammar)
}

// The tests of the names, the sorts and the grammar, where the command is within its limits and its rules stand in their place.
pub(crate) fn names_tested(
    text: &[u8],
    lexemes: &[u64],
    names: &mut [u8],
    raw: &mut [u64],
    places: &mut [u64],
    forms: &mut [u64],
    command: Command,
    gathered: Gathered,
) -> Verdict
    requires { Gathering text.now lexemes.now names.old raw.old places.old forms.old
        command.progress gathered command.at command.nowhere }
    ensures { TestsNames text.now lexemes.now names.old raw.old places.old
        forms.old command gathered names.new raw.new places.new forms.new result }
{
    let header = header_of(lexemes, command.at);
    let place = names_place(
        text,
        lexemes,
        names,
        raw,
        forms,
        command,
        header.arguments,
        gathered.row,
    );
    if place < command.nowhere {
        return verdict(NAME, place, 0);
    }
    let parts = Parts { header, gathered };
    sorts_tested(text, lexemes, names, raw, places, forms, command, parts)
}
