//! The three tests of a body.
ghost use Rattle.std.specs.Prelude.{◌≡◌, ◌*◌, drop};
ghost use Rattle.terms.specs.code.Nodes.{row_width};
ghost use Rattle.bodies.specs.code.Bodies.{Limited, NamesBody, Naming, TermAt, no_sorts};
ghost use Rattle.term_faults.specs.code.Bodies.{FindsInBody, BodyFound, BodySought};

use crate::Body;
use forest::limits::SCRIPT_WORDS;
use lexemes::next_at;
use names::forms::write_forms;
use names::{Seen, Target};
use term_faults::bodies::body_fault;
use term_nodes::gather::gather_terms;
use term_nodes::limits::word_past;
use term_nodes::sizes::count_nodes;
use terms::ROW;

// Gathers the nodes of the term at a word, and finds the node past the first `most`.
pub fn body_limit(lexemes: &[u64], at: usize, raw: &mut [u64], most: usize, nowhere: usize) -> Body
    requires { TermAt lexemes.now raw.old at }
    ensures { (p : TermAt lexemes.now raw.old at) → Limited p most nowhere raw.new result }
{
    let rows = gather_terms(lexemes, at, next_at(lexemes, at), raw, 0);
    let place = word_past(lexemes, raw, 0, rows, most, nowhere);
    Body { rows, place }
}

// Counts the nodes that are gathered of a term and writes their forms into their rows; returns the least word with a name that is not known.
pub fn body_names(
    text: &[u8],
    lexemes: &[u64],
    names: &[u8],
    raw: &mut [u64],
    nodes: &mut [u64],
    seen: Seen,
    target: Target,
) -> usize
    requires { Naming text.now lexemes.now names.now raw.old nodes.old seen target.count target.base target.nowhere }
    ensures { NamesBody text.now lexemes.now names.now raw.old nodes.old seen target
        raw.new nodes.new result }
{
    count_nodes(raw, target.count);
    write_forms(names, seen, text, lexemes, raw, nodes, target)
}

// The column of sorts before it is filled.
pub fn no_sorts() -> [u8; SCRIPT_WORDS]
    ensures { result ≡ no_sorts }
{
    [0; SCRIPT_WORDS]
}

// The word at fault in a term, whose forms stand from row `base` on, that is to be of a sort.
pub fn body_sort(
    raw: &[u64],
    nodes: &[u64],
    signatures: &[u64],
    count: usize,
    base: usize,
    sort: u64,
    nowhere: usize,
) -> usize
    requires { BodySought raw.now (drop (row_width * base) nodes.now) signatures.now no_sorts count sort nowhere }
    ensures { FindsInBody raw.now (drop (row_width * base) nodes.now) signatures.now no_sorts count sort nowhere result }
{
    let mut column = no_sorts();
    let forms = &nodes[ROW * base..];
    body_fault(raw, forms, signatures, &mut column, count, sort, nowhere)
}
