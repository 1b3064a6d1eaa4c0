//! The nodes of terms, gathered from the words before their names are looked up: four numbers for each node, its first word, the word that says what it is,
//! how many operands it has, and how many nodes its tree has. A node past the end of a table has zeros.
//! The rules that a grammar lists: their nodes, gathered one after the other, where each starts and its non-terminal; and the limits on them.
#![tactic(auto)]

pub mod gather;
pub mod limits;
pub mod rule_limits;
pub mod rules;
pub mod sizes;
pub mod weights;

ghost use Rattle.std.specs.Prelude.{◌≡◌};
ghost use Rattle.term_nodes.specs.code.Table.{first_at, head_at, is_constant_head, operands_at, size_at};

use forest::numbers::number_at;
use lexemes::codes::OTHER;

// How many numbers a row has.
pub const ROW: usize = 4;

// The first word of a node.
pub fn first_at(raw: &[u64], node: usize) -> usize
    ensures { result ≡ first_at raw.now node }
{
    number_at(raw, ROW, node, 0) as usize
}

// The word that says what a node is.
pub fn head_at(raw: &[u64], node: usize) -> usize
    ensures { result ≡ head_at raw.now node }
{
    number_at(raw, ROW, node, 1) as usize
}

// How many operands a node has.
pub fn operands_at(raw: &[u64], node: usize) -> usize
    ensures { result ≡ operands_at raw.now node }
{
    number_at(raw, ROW, node, 2) as usize
}

// How many nodes the tree of a node has.
pub fn size_at(raw: &[u64], node: usize) -> usize
    ensures { result ≡ size_at raw.now node }
{
    number_at(raw, ROW, node, 3) as usize
}

// Whether a node is a constant `(_ bvN n)`, by its first word, the word that says what it is and the code of that: `bvN` stands two words behind the bracket.
pub fn is_constant(first: usize, head: usize, code: u64) -> bool
    ensures { result ≡ is_constant_head first head code }
{
    if (code <= OTHER) | (head < 2) {
        return false;
    }
    head - 2 == first
}

// What is gathered so far: how many rows and rules, and the least word past a limit.
#[derive(Clone, Copy)]
pub struct Gathered {
    pub row: usize,
    pub rule: usize,
    pub place: usize,
}
