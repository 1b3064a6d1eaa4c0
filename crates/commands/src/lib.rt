//! The command that declares a variable: `declare-var`.
//! The commands that say a term: `define-fun`, `constraint` and `assume`.
#![tactic(auto)]

pub mod declare_var;
pub mod define_fun;
pub mod state;
mod term_tests;

use names::{Seen, Target};

// The test of a term: the names that it sees and the sort that it is to have; where its forms are written; and the words at fault in the head of its command,
// by a name and by a sort.
#[derive(Clone, Copy)]
struct TermTest {
    seen: Seen,
    sort: u64,
    target: Target,
    named: usize,
    empty: usize,
}
