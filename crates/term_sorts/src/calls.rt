//! The sort of a function or a non-terminal over operands of given sorts, by its row in the table of signatures.
ghost use Rattle.std.specs.Prelude.{◌≡◌, ◌<◌};
ghost use Rattle.forest.specs.code.Rows.{number_at};
ghost use Rattle.term_sorts.specs.code.Calls.{ArgumentsFit, Called, CalledFully, CalledGives};
ghost use Rattle.term_sorts.specs.code.Signatures.{all_rows, signature_width};

use crate::operands::sort_at;
use crate::rules::number_when;
use forest::numbers::entry_at;
use terms::size_at;

// How many numbers a row has.
const ROW: usize = 10;

// Number `place` of a row.
fn signature_at(signatures: &[u64], row: usize, place: usize) -> u64
    requires { (row < all_rows) × (place < signature_width) }
    ensures { result ≡ number_at signature_width signatures.now row place }
{
    entry_at(signatures, ROW * row + place)
}

// Whether the trees from node `place` on, as many as a row has arguments, have the sorts of the arguments.
fn arguments_fit(
    forms: &[u64],
    signatures: &[u64],
    column: &[u8],
    place: usize,
    count: usize,
    row: usize,
) -> bool
    requires { CalledFully forms.now signatures.now column.now place count row }
    ensures { ArgumentsFit forms.now signatures.now column.now place count row result }
{
    let mut here = place;
    for argument in 0..count {
        if sort_at(column, here) - 1 != signature_at(signatures, row, 2 + argument) {
            return false;
        }
        here += size_at(forms, here);
    }
    true
}

// The sort of the function or non-terminal of a row over the trees from node `place` on, `count` of them.
pub fn called_sort(
    forms: &[u64],
    signatures: &[u64],
    column: &[u8],
    place: usize,
    count: usize,
    row: usize,
) -> u64
    requires { Called forms.now signatures.now column.now place count row }
    ensures { CalledGives forms.now signatures.now column.now place count row result }
{
    if count as u64 != signature_at(signatures, row, 0) {
        return 0;
    }
    let fit = arguments_fit(forms, signatures, column, place, count, row);
    number_when(fit, signature_at(signatures, row, 1) + 1)
}
