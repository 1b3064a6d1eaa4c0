//! The reader of scripts: one command after the other, each refusal at its place, and the tables of a script that passes.
#![tactic(auto)]

pub mod command;
mod progress;
pub mod scripts;
mod taken;

use script::Progress;

// The number of an answer, its word and the word of its second number, 0 where all commands so far pass; and what they have said.
#[derive(Clone, Copy)]
pub struct Step {
    pub number: usize,
    pub place: usize,
    pub second: usize,
    pub progress: Progress,
}
