//! Texts: a script and a response, from their bytes to a refusal at its offset or to the tables of what they say.
#![tactic(auto)]

mod lexed;
pub mod responses;
pub mod scripts;
mod text_words;

// How many bytes a short script and a short response have at most: tables of so many rows have room for their words.
pub const SHORT_SCRIPT: usize = 2048;

pub const SHORT_RESPONSE: usize = 512;

// How many bytes a script of middle length has at most.
pub const MIDDLE_SCRIPT: usize = 4096;
