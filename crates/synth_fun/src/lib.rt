//! The command that says a function and its grammar: `synth-fun`.
#![tactic(auto)]

pub mod command;
pub mod name_tests;
mod rows;
mod sort_tests;

use term_nodes::Gathered;

// How many arguments and non-terminals a `synth-fun` declares, and the sort of its result.
#[derive(Clone, Copy)]
pub struct Header {
    pub arguments: usize,
    pub listed: usize,
    pub result: u64,
}

// What is read of a `synth-fun` before its sorts are tested: its header, and how much of its grammar was gathered.
#[derive(Clone, Copy)]
struct Parts {
    header: Header,
    gathered: Gathered,
}
