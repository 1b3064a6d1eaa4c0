//! Grammars: the limits, names, sorts and lists of the grammar of a `synth-fun`.
//! What a grammar lists: each non-terminal again, in the same order and of the same sort, with its rules; and its start.
#![tactic(auto)]

pub mod listed;
mod parts;
pub mod read;
