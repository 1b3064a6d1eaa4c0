//! The sort of the tree at a node.
ghost use Rattle.std.specs.Prelude.{◌≡◌};
ghost use Rattle.term_faults.specs.code.Roots.{RootAt, RootFits, SideFits, rule_first};

use lexemes::{WEIGHT, code_at, next_at};
use term_nodes::first_at;

// The first word of the tree at a node, where it is not of the sort; `nowhere` where it is.
pub fn root_misfit(raw: &[u64], column: &[u8], node: usize, sort: u64, nowhere: usize) -> usize
    requires { RootAt raw.now column.now node sort }
    ensures { (p : RootAt raw.now column.now node sort) → RootFits p nowhere result }
{
    if column[node] as u64 == sort + 1 {
        return nowhere;
    }
    first_at(raw, node)
}

// The first word of the rule whose right side begins at a word.
fn rule_first(lexemes: &[u64], word: usize) -> usize
    ensures { result ≡ rule_first lexemes.now word }
{
    if code_at(lexemes, next_at(lexemes, word)) != WEIGHT {
        return word;
    }
    if word < 2 {
        return 0;
    }
    word - 2
}

// The first word of the rule whose right side is the tree at a node, where that is not of the sort; `nowhere` where it is.
pub fn side_misfit(
    lexemes: &[u64],
    raw: &[u64],
    column: &[u8],
    node: usize,
    sort: u64,
    nowhere: usize,
) -> usize
    requires { RootAt raw.now column.now node sort }
    ensures { (p : RootAt raw.now column.now node sort) → SideFits lexemes.now p nowhere result }
{
    if column[node] as u64 == sort + 1 {
        return nowhere;
    }
    rule_first(lexemes, first_at(raw, node))
}
