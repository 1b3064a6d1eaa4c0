//! What the program `test_vectors` reads and writes beside an answer: fields and hex digits of a record, what is found in one text, and the lent area.
#![tactic(auto)]

pub mod area;
mod digest;
pub mod fields;
pub mod hex;
pub mod texts;
