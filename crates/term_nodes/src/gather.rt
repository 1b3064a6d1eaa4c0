//! The nodes of terms in the order of the text, not yet counted.
ghost use Rattle.std.specs.Prelude.{[], ◌∷◌, ◌≡◌, ◌+◌, ◌*◌, ◌≤◌, length};
ghost use Rattle.std.proofs.lemmas.List.Edits.{sets};
ghost use Rattle.forest.specs.Forest.{count};
ghost use Rattle.lexemes.specs.code.Standing.{ItemAt};
ghost use Rattle.term_nodes.specs.code.Table.{row_width, head_word, operands_of};
ghost use Rattle.term_nodes.specs.Terms.{raw_of};
ghost use Rattle.term_nodes.specs.code.Gather.{Gathered, GatheredRule, Gathering, GatheringRule, Onward, TermAt, term_word};

use crate::ROW;
use lexemes::codes::{OTHER, UNDERSCORE};
use lexemes::items::count_items;
use lexemes::{CLOSE, OPEN, code_at, next_at};
use shapes::annotations::is_annotated;
use shapes::rules::is_pattern;

// The word that says what the node at a word is.
fn head_word(lexemes: &[u64], at: usize) -> usize
    requires { TermAt lexemes.now at }
    ensures { (here : TermAt lexemes.now at) → result ≡ head_word (raw_of here.label here.operands) }
{
    if code_at(lexemes, at) != OPEN {
        return at;
    }
    let first = code_at(lexemes, at + 1);
    if first == UNDERSCORE {
        if code_at(lexemes, at + 2) > OTHER {
            return at + 2;
        }
        return at + 3;
    }
    if first == OPEN {
        return at + 4;
    }
    at + 1
}

// How many operands the node at a word has.
fn operand_count(lexemes: &[u64], at: usize) -> usize
    requires { TermAt lexemes.now at }
    ensures { (here : TermAt lexemes.now at) → result ≡ count (operands_of here.operands) }
{
    if code_at(lexemes, at) != OPEN {
        return 0;
    }
    if code_at(lexemes, at + 1) == UNDERSCORE {
        return 0;
    }
    count_items(lexemes, next_at(lexemes, at + 1), next_at(lexemes, at) - 1)
}

// The word at which the node behind the node at a word stands, or a closing bracket before it.
fn behind(lexemes: &[u64], at: usize) -> usize
    requires { TermAt lexemes.now at }
    ensures { (here : TermAt lexemes.now at) → Onward here result }
{
    if code_at(lexemes, at) != OPEN {
        return at + 1;
    }
    if code_at(lexemes, at + 1) == UNDERSCORE {
        return next_at(lexemes, at);
    }
    next_at(lexemes, at + 1)
}

// Writes the row of a node that is not counted yet.
fn put_node(raw: &mut [u64], node: usize, at: usize, head: usize, operands: usize)
    requires { row_width * node + row_width ≤ length raw.old }
    ensures { raw.new ≡ sets raw.old (row_width * node) (at ∷ head ∷ operands ∷ 0 ∷ []) }
{
    let row = ROW * node;
    raw[row] = at as u64;
    raw[row + 1] = head as u64;
    raw[row + 2] = operands as u64;
    raw[row + 3] = 0;
}

// Gathers the nodes of the terms that stand from a word on to another into the rows from `node` on; returns the row past them.
pub fn gather_terms(
    lexemes: &[u64],
    first: usize,
    end: usize,
    raw: &mut [u64],
    node: usize,
) -> usize
    requires { Gathering lexemes.now first end raw.old node }
    ensures { (p : Gathering lexemes.now first end raw.old node) → Gathered p raw.new result }
{
    let mut at = first;
    let mut next = node;
    while at < end {
        if code_at(lexemes, at) == CLOSE {
            at += 1;
        } else {
            let head = head_word(lexemes, at);
            let operands = operand_count(lexemes, at);
            put_node(raw, next, at, head, operands);
            next += 1;
            at = behind(lexemes, at);
        }
    }
    next
}

// The word at which the term of a rule stands that is one.
fn term_of(lexemes: &[u64], at: usize) -> usize
    requires { ItemAt lexemes.now at }
    ensures { (here : ItemAt lexemes.now at) → result ≡ term_word at here.label here.operands }
{
    if is_annotated(lexemes, at) {
        return at + 2;
    }
    at
}

// Gathers the nodes of the rule at a word into the rows from `node` on; returns the row past them.
pub fn gather_rule(lexemes: &[u64], at: usize, raw: &mut [u64], node: usize) -> usize
    requires { GatheringRule lexemes.now at raw.old node }
    ensures { (p : GatheringRule lexemes.now at raw.old node) → GatheredRule p raw.new result }
{
    if !is_pattern(lexemes, at) {
        let first = term_of(lexemes, at);
        return gather_terms(lexemes, first, next_at(lexemes, first), raw, node);
    }
    put_node(raw, node, at, at + 1, 0);
    node + 1
}
