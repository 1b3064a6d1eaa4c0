//! Bodies: a term of a command that is to be of a sort, its limit, its names and its sort.
#![tactic(auto)]

pub mod read;

// What is gathered of a body: how many rows its nodes take, and the word past the limit.
#[derive(Clone, Copy)]
pub struct Body {
    pub rows: usize,
    pub place: usize,
}
