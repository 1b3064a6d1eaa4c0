//! Terms in node tables: four numbers for each node. A node past the end of a table has zeros.
#![tactic(auto)]

pub mod codes;

ghost use Rattle.std.specs.Prelude.{◌≡◌};
ghost use Rattle.terms.specs.code.Nodes.{code_at, operands_at, size_at, value_at};

use forest::numbers::number_at;

// A value of a sort: 0 is Bool, else the width; and its number.
#[derive(Clone, Copy)]
pub struct Value {
    pub sort: u64,
    pub number: u64,
}

// How many numbers a row has.
pub const ROW: usize = 4;

// The code of a node's label.
pub fn code_at(nodes: &[u64], node: usize) -> u64
    ensures { result ≡ code_at nodes.now node }
{
    number_at(nodes, ROW, node, 0)
}

// The value of a node's label.
pub fn value_at(nodes: &[u64], node: usize) -> u64
    ensures { result ≡ value_at nodes.now node }
{
    number_at(nodes, ROW, node, 1)
}

// How many operands a node has.
pub fn operands_at(nodes: &[u64], node: usize) -> u64
    ensures { result ≡ operands_at nodes.now node }
{
    number_at(nodes, ROW, node, 2)
}

// How many nodes the tree at a node has.
pub fn size_at(nodes: &[u64], node: usize) -> usize
    ensures { result ≡ size_at nodes.now node }
{
    number_at(nodes, ROW, node, 3) as usize
}
