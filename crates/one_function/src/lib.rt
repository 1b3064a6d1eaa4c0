//! One function of the tables that hold a script and a response: its grammar and its body, as the search for a derivation and the check of one are handed them.
#![tactic(auto)]

ghost use Rattle.std.specs.Prelude.{◌≡◌, ◌+◌, ◌*◌, ◌≤◌, length};
ghost use Rattle.terms.specs.code.Nodes.{row_width};
ghost use Rattle.one_function.specs.code.OneFunction.{rows_from};

use terms::ROW;

// So many rows of a table of nodes, from one row on.
pub fn rows_from<'a>(nodes: &'a [u64], first: usize, count: usize) -> &'a [u64]
    requires { row_width * (first + count) ≤ length nodes.now }
    ensures { result.now ≡ rows_from nodes.now first count }
{
    let start = ROW * first;
    let end = start + ROW * count;
    &nodes[start..end]
}
