//! Sort faults of terms, and rules that are not of their non-terminal's sort, by the words at fault.
//! Laws of what stands in the tables of a text: bounds of its words, and the nodes of its terms and rules.
#![tactic(auto)]

pub mod bodies;
pub mod grammars;
mod roots;
