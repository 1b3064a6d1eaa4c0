//! Scripts: what is known after each command, in tables.
//! The table of signatures: ten numbers for each `define-fun`, synthesized function and non-terminal, how many arguments it has, its sort, and the sorts of its
//! arguments.
#![tactic(auto)]

pub mod answers;
pub mod places;
pub mod signatures;

// What the commands before have said: whether the logic was set and `check-synth` was met, how many there are of each kind, and how many rows of nodes and of
// forms are taken.
#[derive(Clone, Copy)]
pub struct Progress {
    pub logic: bool,
    pub weights: bool,
    pub ended: bool,
    pub variables: usize,
    pub defined: usize,
    pub functions: usize,
    pub constraints: usize,
    pub assumptions: usize,
    pub nodes: usize,
    pub forms: usize,
}

// The number of an answer and its word, 0 where a command passes; and how many rows of nodes or forms it takes.
#[derive(Clone, Copy)]
pub struct Verdict {
    pub number: usize,
    pub place: usize,
    pub rows: usize,
}

// A command that is read: what those before it have said, the word of its bracket, and how many words the text has.
#[derive(Clone, Copy)]
pub struct Command {
    pub progress: Progress,
    pub at: usize,
    pub nowhere: usize,
}
