//! The `define-fun` of a response that is for a function of the script.
ghost use Rattle.std.specs.Prelude.{◌<◌, ◌≡◌};
ghost use Rattle.forest.specs.Limits.{most_functions};
ghost use Rattle.response.specs.code.Functions.{TurnAsked, TurnGathered, TurnMatched, TurnTaken, seen_by};

use crate::Turn;
use crate::outlines::{body_word, outline};
use bodies::read::{body_names, body_sort};
use forest::limits::ARGUMENTS;
use forest::numbers::least;
use headers::compare::header_differs;
use lexemes::start_at;
use names::table::OWN_ARGUMENTS;
use names::{Seen, Target};
use script::answers::{ACCEPTED, HEADER, NAME, SORT, verdict};
use script::places::{arguments_of, defined_before, put_body, result_of};
use script::{Progress, Verdict};

// What the body for a function sees: its arguments, and the `define-fun`s before it.
fn seen_by(places: &[u64], progress: Progress, function: usize) -> Seen
    requires { function < most_functions }
    ensures { result ≡ seen_by places.now progress function }
{
    let first = OWN_ARGUMENTS + ARGUMENTS * function;
    let names = arguments_of(places, function);
    let before = defined_before(places, function);
    let defined = least(before, progress.defined);
    Seen {
        first,
        names,
        defined,
        functions: 0,
        non_terminals: 0,
    }
}

// 12, 7 and 8 of the `define-fun` of a turn, the nodes of whose body are gathered in so many rows; writes the terms that they are.
fn held_to(
    text: &[u8],
    lexemes: &[u64],
    names: &[u8],
    raw: &mut [u64],
    places: &[u64],
    nodes: &mut [u64],
    turn: Turn,
    rows: usize,
) -> Verdict
    requires { TurnGathered text.now lexemes.now names.now raw.old places.now nodes.old turn rows }
    ensures { TurnMatched text.now lexemes.now names.now raw.old places.now
        nodes.old turn rows nodes.new result }
{
    let nowhere = turn.nowhere;
    let arguments = arguments_of(places, turn.function);
    let result = result_of(places, turn.function);
    let header = header_differs(
        text,
        lexemes,
        names,
        turn.at,
        turn.function,
        arguments,
        result,
        nowhere,
    );
    if header < nowhere {
        return verdict(HEADER, header, rows);
    }
    let seen = seen_by(places, turn.progress, turn.function);
    let target = Target {
        count: rows,
        base: turn.base,
        nowhere,
    };
    let name = body_names(text, lexemes, names, raw, nodes, seen, target);
    if name < nowhere {
        return verdict(NAME, name, rows);
    }
    let sort = body_sort(raw, nodes, places, rows, turn.base, result, nowhere);
    if sort < nowhere {
        return verdict(SORT, sort, rows);
    }
    verdict(ACCEPTED, sort, rows)
}

// The `define-fun` of a turn: where it passes its body stands in the tables, and with it the offset of the body's first word.
pub fn read_body(
    text: &[u8],
    lexemes: &[u64],
    names: &[u8],
    raw: &mut [u64],
    places: &mut [u64],
    nodes: &mut [u64],
    turn: Turn,
) -> Verdict
    requires { TurnAsked text.now lexemes.now names.now raw.old places.old nodes.old turn }
    ensures { TurnTaken text.now lexemes.now names.now raw.old places.old
        nodes.old turn places.new nodes.new result }
{
    let outlined = outline(lexemes, raw, turn.at, turn.nowhere);
    if outlined.number != ACCEPTED {
        return outlined;
    }
    let held = held_to(
        text,
        lexemes,
        names,
        raw,
        places,
        nodes,
        turn,
        outlined.rows,
    );
    if held.number != ACCEPTED {
        return held;
    }
    let offset = start_at(lexemes, body_word(lexemes, turn.at));
    put_body(places, turn.function, turn.base, offset);
    held
}
