//! The commands `constraint` and `assume`, with their tests in their order.
ghost use Rattle.std.specs.Prelude.{◌≡◌};
ghost use Rattle.commands.specs.code.State.{States, Stating, first_stated, most_stated, stated_before};

use crate::TermTest;
use crate::term_tests::{command_past, judge_body};
use bodies::read::body_limit;
use forest::limits::{ASSUMPTIONS, CONSTRAINTS, FIRST_ASSUMPTION, NODES};
use forest::numbers::least;
use names::table::VARIABLES;
use names::{Seen, Target};
use script::answers::{PAST_LIMIT, verdict};
use script::places::put_stated;
use script::{Command, Progress, Verdict};

// How many constraints or assumptions there may be.
fn most_stated(assumed: bool) -> usize
    ensures { result ≡ most_stated assumed }
{
    if assumed { ASSUMPTIONS } else { CONSTRAINTS }
}

// The number of the first of them.
fn first_stated(assumed: bool) -> usize
    ensures { result ≡ first_stated assumed }
{
    if assumed { FIRST_ASSUMPTION } else { 0 }
}

// How many there are before it.
fn stated_before(progress: Progress, assumed: bool) -> usize
    ensures { result ≡ stated_before assumed progress }
{
    if assumed {
        progress.assumptions
    } else {
        progress.constraints
    }
}

// The `constraint` at a word, or the `assume`: its term stands in the tables where it passes.
pub fn state(
    text: &[u8],
    lexemes: &[u64],
    names: &[u8],
    raw: &mut [u64],
    places: &mut [u64],
    nodes: &mut [u64],
    command: Command,
    assumed: bool,
) -> Verdict
    requires { Stating text.now lexemes.now names.now raw.old places.old nodes.old
        command.progress command.at command.nowhere assumed }
    ensures { States text.now lexemes.now names.now raw.old places.old nodes.old
        command assumed raw.new places.new nodes.new result }
{
    let nowhere = command.nowhere;
    let body = body_limit(lexemes, command.at + 2, raw, NODES, nowhere);
    let stated = stated_before(command.progress, assumed);
    let before = command_past(stated, most_stated(assumed), command.at, nowhere);
    let past = least(before, body.place);
    if past < nowhere {
        return verdict(PAST_LIMIT, past, 0);
    }
    let seen = Seen {
        first: VARIABLES,
        names: command.progress.variables,
        defined: command.progress.defined,
        functions: command.progress.functions,
        non_terminals: 0,
    };
    let target = Target {
        count: body.rows,
        base: command.progress.nodes,
        nowhere,
    };
    let test = TermTest {
        seen,
        sort: 0,
        target,
        named: nowhere,
        empty: nowhere,
    };
    let judged = judge_body(text, lexemes, names, raw, places, nodes, test);
    if judged.number > 0 {
        return judged;
    }
    put_stated(
        places,
        first_stated(assumed) + stated,
        command.progress.nodes,
    );
    judged
}
