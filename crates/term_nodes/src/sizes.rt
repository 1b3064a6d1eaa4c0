//! How many nodes each tree has, from the last node to the first.
ghost use Rattle.term_nodes.specs.code.Sizes.{Counted, Counting, PastTree, TreeAt};

use crate::{ROW, operands_at, size_at};

// The node past the tree of a node, where the trees of its operands are counted.
fn past_tree(raw: &[u64], node: usize) -> usize
    requires { TreeAt raw.now node }
    ensures { (p : TreeAt raw.now node) → PastTree p result }
{
    let operands = operands_at(raw, node);
    let mut next = node + 1;
    for _passed in 0..operands {
        next += size_at(raw, next);
    }
    next
}

// Counts the nodes of the trees of the first `count` nodes.
pub fn count_nodes(raw: &mut [u64], count: usize)
    requires { Counting raw.old count }
    ensures { (p : Counting raw.old count) → Counted p raw.new }
{
    for node in (0..count).rev() {
        raw[ROW * node + 3] = (past_tree(raw, node) - node) as u64;
    }
}
