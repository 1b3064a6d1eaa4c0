//! The reader of responses: one `define-fun` for each synthesized function, each refusal at its place, and the bodies of a response that passes.
#![tactic(auto)]

pub mod answers;
mod functions;
mod outlines;

use script::Progress;

// The `define-fun` at a word for a function of a script that has said this, before which `base` rows of nodes are taken, in a response of so many words.
#[derive(Clone, Copy)]
pub struct Turn {
    pub progress: Progress,
    pub at: usize,
    pub function: usize,
    pub base: usize,
    pub nowhere: usize,
}
