//! The one nested data type and the laws that more than one crate needs, the limits, numbers of tables, and the search for a word.
#![tactic(auto)]

pub mod limits;
pub mod numbers;
pub mod search;
