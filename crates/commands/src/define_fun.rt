//! The command `define-fun`, with its tests in their order.
ghost use Rattle.std.specs.Prelude.{false};
ghost use Rattle.headers.specs.code.Heads.{HeadAt};
ghost use Rattle.commands.specs.code.DefineFun.{Defines, DefinitionPut, Defining, NamesHead, Putting, Settles, Within, scope_before};

use crate::TermTest;
use crate::term_tests::{command_past, judge_body};
use bodies::read::body_limit;
use forest::limits::{DEFINED, NODES};
use forest::numbers::least;
use headers::heads::{head_names, head_past};
use lexemes::items::count_items;
use lexemes::next_at;
use names::table::ARGUMENTS;
use names::{Scope, Seen, Target};
use script::answers::{PAST_LIMIT, verdict};
use script::places::put_defined_body;
use script::signatures::put_signature;
use script::{Command, Verdict};
use written_sorts::Fault;
use written_sorts::headers::header_place;
use written_sorts::places::sort_of;

// Puts the signature of a `define-fun` and the row at which its body begins into the table of places.
fn put_definition(
    names: &[u8],
    places: &mut [u64],
    defined: usize,
    arguments: usize,
    sort: u64,
    row: usize,
)
    requires { Putting names.now places.old defined arguments sort }
    ensures { DefinitionPut names.now places.old defined arguments sort row places.new }
{
    put_signature(names, places, defined, ARGUMENTS, arguments, sort);
    put_defined_body(places, defined, row);
}

// Puts the name and the arguments of the `define-fun` at a word into their rows; returns the least word at fault in its head, by its names.
fn define_names(text: &[u8], lexemes: &[u64], names: &mut [u8], command: Command) -> usize
    requires { HeadAt text.now lexemes.now names.old (scope_before command.progress) false command.at }
    ensures { NamesHead text.now lexemes.now names.old command names.new result }
{
    let scope = Scope {
        variables: command.progress.variables,
        defined: command.progress.defined,
        functions: command.progress.functions,
        first: ARGUMENTS,
        arguments: 0,
    };
    head_names(
        text,
        lexemes,
        names,
        scope,
        false,
        command.at,
        command.nowhere,
    )
}

// Tests the names and the sorts of the `define-fun` at a word, whose body has so many nodes; its name, signature and body stand in the tables where it passes.
fn define_within(
    text: &[u8],
    lexemes: &[u64],
    names: &mut [u8],
    raw: &mut [u64],
    places: &mut [u64],
    nodes: &mut [u64],
    command: Command,
    rows: usize,
) -> Verdict
    requires { Within text.now lexemes.now names.old raw.old places.old nodes.old
        command.progress rows command.at command.nowhere }
    ensures { Settles text.now lexemes.now names.old raw.old places.old nodes.old
        command rows names.new raw.new places.new nodes.new result }
{
    let nowhere = command.nowhere;
    let arguments = next_at(lexemes, command.at + 2);
    let result = next_at(lexemes, arguments);
    let count = count_items(lexemes, arguments + 1, result - 1);
    let sort = sort_of(lexemes, result);
    let empty = header_place(lexemes, command.at, Fault::Empty, nowhere);
    let named = define_names(text, lexemes, names, command);
    let seen = Seen {
        first: ARGUMENTS,
        names: count,
        defined: command.progress.defined,
        functions: 0,
        non_terminals: 0,
    };
    let target = Target {
        count: rows,
        base: command.progress.nodes,
        nowhere,
    };
    let test = TermTest {
        seen,
        sort,
        target,
        named,
        empty,
    };
    let judged = judge_body(text, lexemes, names, raw, places, nodes, test);
    if judged.number > 0 {
        return judged;
    }
    put_definition(
        names,
        places,
        command.progress.defined,
        count,
        sort,
        command.progress.nodes,
    );
    judged
}

// The `define-fun` at a word: its name, signature and body stand in the tables where it passes.
pub fn define_fun(
    text: &[u8],
    lexemes: &[u64],
    names: &mut [u8],
    raw: &mut [u64],
    places: &mut [u64],
    nodes: &mut [u64],
    command: Command,
) -> Verdict
    requires { Defining text.now lexemes.now names.old raw.old places.old nodes.old
        command.progress command.at command.nowhere }
    ensures { Defines text.now lexemes.now names.old raw.old places.old nodes.old
        command names.new raw.new places.new nodes.new result }
{
    let at = command.at;
    let nowhere = command.nowhere;
    let result = next_at(lexemes, next_at(lexemes, at + 2));
    let body = body_limit(lexemes, next_at(lexemes, result), raw, NODES, nowhere);
    let before = command_past(command.progress.defined, DEFINED, at, nowhere);
    let head = head_past(lexemes, at, nowhere);
    let past = least(before, least(head, body.place));
    if past < nowhere {
        return verdict(PAST_LIMIT, past, 0);
    }
    define_within(text, lexemes, names, raw, places, nodes, command, body.rows)
}
