//! The sort of a node's tree, where its operands have sorts.
ghost use Rattle.std.specs.Prelude.{◌≡◌};
ghost use Rattle.term_sorts.specs.code.Nodes.{NodeAt, NodeGives, first_row};

use crate::calls::called_sort;
use crate::rules::{number_when, operator_sort};
use forest::limits;
use terms::codes::{DEFINED, FUNCTION, NON_TERMINAL, OPERATOR, head_of, kind_of};
use terms::{code_at, operands_at, value_at};

// The row of the first synthesized function, and of the first non-terminal.
const FUNCTION_ROW: usize = limits::DEFINED;

const NON_TERMINAL_ROW: usize = FUNCTION_ROW + limits::FUNCTIONS;

// The row of the first `define-fun`, synthesized function or non-terminal, by the kind.
fn first_row(kind: u64) -> usize
    ensures { result ≡ first_row kind }
{
    match kind {
        FUNCTION => FUNCTION_ROW,
        NON_TERMINAL => NON_TERMINAL_ROW,
        _ => 0,
    }
}

// The sort of a node's tree; `whole` says whether all its operands have sorts.
pub fn node_sort(forms: &[u64], signatures: &[u64], column: &[u8], node: usize, whole: bool) -> u64
    requires { NodeAt forms.now signatures.now column.now node whole }
    ensures { NodeGives forms.now signatures.now column.now node whole result }
{
    if !whole {
        return 0;
    }
    let code = code_at(forms, node);
    let value = value_at(forms, node);
    let count = operands_at(forms, node) as usize;
    let kind = kind_of(code);
    if kind == OPERATOR {
        return operator_sort(
            forms,
            column,
            node + 1,
            count,
            head_of(code) as usize,
            value,
        );
    }
    if (DEFINED <= kind) & (kind <= NON_TERMINAL) {
        let row = first_row(kind) + value as usize;
        return called_sort(forms, signatures, column, node + 1, count, row);
    }
    number_when(count == 0, head_of(code) + 1)
}
