//! The table of masks: a row for each node, with the rank of each non-terminal, and the mask of those that derive it.
ghost use Rattle.std.specs.Prelude.{◌≡◌, ◌<◌};
ghost use Rattle.forest.specs.Limits.{most_non_terminals};
ghost use Rattle.forest.specs.code.Rows.{number_at};
ghost use Rattle.searching.specs.code.Masks.{mark_width, mask_at, rank_at};

use forest::limits::NON_TERMINALS;
use forest::numbers::entry_at;

// How many numbers a node has.
pub const MARKS: usize = NON_TERMINALS + 1;

// The place of a node's mask in its row.
pub const MASK: usize = NON_TERMINALS;

// Number `column` of a node.
fn mark(masks: &[u64], node: usize, column: usize) -> u64
    requires { column < mark_width }
    ensures { result ≡ number_at mark_width masks.now node column }
{
    if node > masks.len() / MARKS {
        return 0;
    }
    entry_at(masks, MARKS * node + column)
}

// The mask of a node.
pub(crate) fn mask_at(masks: &[u64], node: usize) -> u64
    ensures { result ≡ mask_at masks.now node }
{
    mark(masks, node, MASK)
}

// The rank of a non-terminal at a node.
pub(crate) fn rank_at(masks: &[u64], node: usize, nonterminal: u64) -> u64
    requires { nonterminal < most_non_terminals }
    ensures { result ≡ rank_at masks.now node nonterminal }
{
    mark(masks, node, nonterminal as usize)
}
