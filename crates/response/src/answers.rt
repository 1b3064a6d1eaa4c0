//! The `define-fun`s of a response, one after the other.
ghost use Rattle.std.specs.Prelude.{◌≡◌};
ghost use Rattle.lexemes.specs.code.Table.{code_at, open_code};
ghost use Rattle.response.specs.code.Answers.{ItemAnswered, ItemAsked, Responding, Responds};

use crate::Turn;
use crate::functions::read_body;
use crate::outlines::extra;
use lexemes::{OPEN, code_at, codes, next_at};
use script::answers::{ACCEPTED, FAIL, HEADER, INFEASIBLE, SHAPE, verdict};
use script::{Progress, Verdict};

// The item of a response's list that is for the next function.
fn read_item(
    text: &[u8],
    lexemes: &[u64],
    names: &[u8],
    raw: &mut [u64],
    places: &mut [u64],
    nodes: &mut [u64],
    turn: Turn,
) -> Verdict
    requires { ItemAsked text.now lexemes.now names.now raw.old places.old nodes.old turn }
    ensures { ItemAnswered text.now lexemes.now names.now raw.old places.old
        nodes.old turn places.new nodes.new result }
{
    if code_at(lexemes, turn.at) != OPEN {
        return verdict(SHAPE, turn.at, 0);
    }
    if turn.function == turn.progress.functions {
        return extra(lexemes, raw, turn.at, turn.nowhere);
    }
    read_body(text, lexemes, names, raw, places, nodes, turn)
}

// The items of the list that a response is, each for the next function, and what stands behind it.
fn read_list(
    text: &[u8],
    lexemes: &[u64],
    names: &[u8],
    raw: &mut [u64],
    places: &mut [u64],
    nodes: &mut [u64],
    progress: Progress,
    nowhere: usize,
) -> Verdict
    requires responding { Responding text.now lexemes.now names.now raw.old places.old nodes.old progress nowhere }
    requires lexemes_value { code_at lexemes.now 0 ≡ open_code }
    ensures { Responds text.now lexemes.now names.now raw.old places.old
        nodes.old progress nowhere places.new nodes.new result }
{
    let close = next_at(lexemes, 0) - 1;
    let mut at = 1;
    let mut function = 0;
    let mut rows = 0;
    while at < close {
        let base = progress.nodes + rows;
        let turn = Turn {
            progress,
            at,
            function,
            base,
            nowhere,
        };
        let read = read_item(text, lexemes, names, raw, places, nodes, turn);
        if read.number != ACCEPTED {
            return read;
        }
        at = next_at(lexemes, at);
        function += 1;
        rows += read.rows;
    }
    if function < progress.functions {
        return verdict(HEADER, close, rows);
    }
    if close + 1 < nowhere {
        return verdict(SHAPE, close + 1, rows);
    }
    verdict(ACCEPTED, nowhere, rows)
}

// Reads a response of so many words to a script whose tables are given; its bodies stand in the tables where it passes.
pub fn read_response(
    text: &[u8],
    lexemes: &[u64],
    names: &[u8],
    raw: &mut [u64],
    places: &mut [u64],
    nodes: &mut [u64],
    progress: Progress,
    nowhere: usize,
) -> Verdict
    requires { Responding text.now lexemes.now names.now raw.old places.old nodes.old progress nowhere }
    ensures { Responds text.now lexemes.now names.now raw.old places.old
        nodes.old progress nowhere places.new nodes.new result }
{
    if nowhere == 0 {
        return verdict(SHAPE, nowhere, 0);
    }
    let code = code_at(lexemes, 0);
    if code == OPEN {
        return read_list(text, lexemes, names, raw, places, nodes, progress, nowhere);
    }
    if (code == codes::FAIL) & (nowhere == 1) {
        return verdict(FAIL, 0, 0);
    }
    if (code == codes::INFEASIBLE) & (nowhere == 1) {
        return verdict(INFEASIBLE, 0, 0);
    }
    verdict(SHAPE, 0, 0)
}
