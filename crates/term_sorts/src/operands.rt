//! The sorts of trees that stand one after the other.
ghost use Rattle.std.specs.Prelude.{◌≡◌, get_or};
ghost use Rattle.term_sorts.specs.code.Forms.{sort_number};
ghost use Rattle.term_sorts.specs.code.Operands.{AllSorted, Common, SomeTrees, Trees};

use terms::size_at;

// The number that stands for a node in the column; 0 past its end.
pub fn sort_at(column: &[u8], node: usize) -> u64
    ensures { result ≡ get_or column.now node 0 }
{
    column.get(node).map_or(0, |sort| u64::from(*sort))
}

// Whether the trees from node `place` on, `count` of them, all have sorts.
pub fn operands_sorted(forms: &[u64], column: &[u8], place: usize, count: usize) -> bool
    requires { Trees sort_number forms.now column.now place count }
    ensures { AllSorted forms.now column.now place count result }
{
    let mut here = place;
    for _tree in 0..count {
        if sort_at(column, here) == 0 {
            return false;
        }
        here += size_at(forms, here);
    }
    true
}

// The sort that the trees from node `place` on, `count` of them, have in common; 0 where they differ.
pub fn common_sort(forms: &[u64], column: &[u8], place: usize, count: usize) -> u64
    requires { SomeTrees forms.now column.now place count }
    ensures { Common forms.now column.now place count result }
{
    let sort = sort_at(column, place);
    let mut here = place;
    for _tree in 0..count {
        if sort_at(column, here) != sort {
            return 0;
        }
        here += size_at(forms, here);
    }
    sort
}
