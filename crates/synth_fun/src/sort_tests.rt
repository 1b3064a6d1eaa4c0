//! The tests of the sorts of the command and of its grammar.
ghost use Rattle.synth_fun.specs.code.SortTests.{Comparing, Deriving, FindsDead, FindsMisfit, TestsSorts, Unsorted};

use crate::Parts;
use crate::rows::put_function;
use bodies::read::no_sorts;
use derivation::productive::first_dead;
use forest::numbers::least;
use grammars::read::{dead_misfit, grammar_sorts, lists_misfit};
use script::answers::{ACCEPTED, GRAMMAR, SORT, verdict};
use script::places::{rules_of, rules_place, sorts_of};
use script::signatures::put_sorts;
use script::{Command, Verdict};
use term_faults::grammars::rules_misfit;
use terms::ROW;
use written_sorts::Fault;
use written_sorts::headers::header_place;

// The least word at fault in what the grammar declares and lists, and in the sorts of its rules.
fn misfit_place(
    text: &[u8],
    lexemes: &[u64],
    names: &[u8],
    raw: &[u64],
    places: &[u64],
    column: &[u8],
    command: Command,
    parts: Parts,
) -> usize
    requires { Comparing text.now lexemes.now names.now raw.now places.now column.now
        command.progress parts.gathered parts.header command.at }
    ensures { FindsMisfit text.now lexemes.now names.now raw.now places.now
        column.now command parts result }
{
    let nowhere = command.nowhere;
    let listed = parts.header.listed;
    let rule = parts.gathered.rule;
    let lists = lists_misfit(text, lexemes, names, command.at, listed, nowhere);
    let first = rules_place(command.progress.functions);
    let rules = &places[first..];
    let sides = rules_misfit(lexemes, raw, rules, places, column, rule, listed, nowhere);
    least(lists, sides)
}

// The declared name of the first non-terminal that derives no term, where the function stands in the tables.
fn dead_place(
    lexemes: &[u64],
    places: &[u64],
    forms: &[u64],
    command: Command,
    parts: Parts,
) -> usize
    requires { Deriving lexemes.now places.now forms.now command.progress parts.gathered parts.header command.at }
    ensures { FindsDead lexemes.now places.now forms.now command parts result }
{
    let function = command.progress.functions;
    let listed = parts.header.listed;
    let start = ROW * command.progress.forms;
    let end = start + ROW * parts.gathered.row;
    let rules = rules_of(places, function);
    let arguments = sorts_of(places, function);
    let dead = first_dead(rules, &forms[start..end], arguments, listed);
    dead_misfit(lexemes, command.at, dead, listed, command.nowhere)
}

// The tests of the sorts and of the grammar, where the names are in order; and what is known of the function, where they pass.
pub(crate) fn sorts_tested(
    text: &[u8],
    lexemes: &[u64],
    names: &[u8],
    raw: &[u64],
    places: &mut [u64],
    forms: &[u64],
    command: Command,
    parts: Parts,
) -> Verdict
    requires { Unsorted text.now lexemes.now names.now raw.now places.old forms.now
        command.progress parts.gathered parts.header command.at command.nowhere }
    ensures { TestsSorts text.now lexemes.now names.now raw.now places.old
        forms.now command parts places.new result }
{
    let at = command.at;
    let nowhere = command.nowhere;
    let listed = parts.header.listed;
    let row = parts.gathered.row;
    let own = &forms[ROW * command.progress.forms..];
    let mut column = no_sorts();
    put_sorts(names, places, listed);
    let head = header_place(lexemes, at, Fault::Empty, nowhere);
    let within = grammar_sorts(lexemes, raw, own, places, &mut column, at, row, nowhere);
    let place = least(head, within);
    if place < nowhere {
        return verdict(SORT, place, 0);
    }
    let misfit = misfit_place(text, lexemes, names, raw, places, &column, command, parts);
    if misfit < nowhere {
        return verdict(GRAMMAR, misfit, 0);
    }
    put_function(names, places, command.progress, parts);
    let dead = dead_place(lexemes, places, forms, command, parts);
    if dead < nowhere {
        return verdict(GRAMMAR, dead, 0);
    }
    verdict(ACCEPTED, 0, row)
}
