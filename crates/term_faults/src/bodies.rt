//! Sort faults of terms.
ghost use Rattle.term_faults.specs.code.Bodies.{Finds, FindsInBody, BodyFound, BodySought, Found, Sought};

use crate::roots::root_misfit;
use term_nodes::first_at;
use term_sorts::fill_sorts;

// The least word at fault in the sorts of terms; fills in the sorts of their nodes.
pub fn fault_word(
    raw: &[u64],
    forms: &[u64],
    signatures: &[u64],
    column: &mut [u8],
    count: usize,
    nowhere: usize,
) -> usize
    requires { Sought raw.now forms.now signatures.now column.old count nowhere }
    ensures { Finds raw.now forms.now signatures.now column.old count nowhere column.new result }
{
    let fault = fill_sorts(forms, signatures, count, column);
    if fault < count {
        return first_at(raw, fault);
    }
    nowhere
}

// The word at fault in a term that is to be of a sort: the least in its parts, else its first word where its sort is another.
pub fn body_fault(
    raw: &[u64],
    forms: &[u64],
    signatures: &[u64],
    column: &mut [u8],
    count: usize,
    sort: u64,
    nowhere: usize,
) -> usize
    requires { BodySought raw.now forms.now signatures.now column.old count sort nowhere }
    ensures { FindsInBody raw.now forms.now signatures.now column.old count sort nowhere result }
{
    let fault = fault_word(raw, forms, signatures, column, count, nowhere);
    if fault < nowhere {
        return fault;
    }
    root_misfit(raw, column, 0, sort, nowhere)
}
