//! The header of a function in a response, held to the one that was declared.
//! The head of a command that defines or synthesizes a function: its name, its arguments and its sort.
#![tactic(auto)]

pub mod compare;
pub mod heads;
