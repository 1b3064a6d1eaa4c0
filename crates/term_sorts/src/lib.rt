//! Sorts of the nodes of forms, from the last node to the first.
//!
//! `forms` is a node table. `signatures` has ten numbers for each `define-fun`, behind 32 of these for each synthesized function, and behind 8 of these for
//! each non-terminal: how many arguments it has, its sort, and the sorts of its arguments. A sort that may be missing is a number: 0 where it is, else one
//! more than the sort, which is at most 64, so that a byte holds the number.
#![tactic(auto)]

mod calls;
mod nodes;
mod operands;
mod rules;

ghost use Rattle.term_sorts.specs.code.Sorting.{SortsFilled, SortsFilling};

use nodes::node_sort;
use operands::operands_sorted;
use terms::operands_at;

// Fills in the sort of each of the first `count` nodes of the forms; returns the first node that has no sort though its operands have, `count` where there is
// none.
pub fn fill_sorts(forms: &[u64], signatures: &[u64], count: usize, column: &mut [u8]) -> usize
    requires { SortsFilling forms.now signatures.now count column.old }
    ensures { (p : SortsFilling forms.now signatures.now count column.old) → SortsFilled p column.new result }
{
    let mut fault = count;
    for node in (0..count).rev() {
        let whole = operands_sorted(forms, column, node + 1, operands_at(forms, node) as usize);
        let sort = node_sort(forms, signatures, column, node, whole);
        if whole & (sort == 0) {
            fault = node;
        }
        column[node] = sort as u8;
    }
    fault
}
