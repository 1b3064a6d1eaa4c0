//! Sorts as they are written: which sort an item says, and what is wrong with it.
#![tactic(auto)]

pub mod headers;
pub mod places;

// What may be wrong with a sort: a width above 64 (4), a symbol that is no sort (7), a width of 0 (8).
#[derive(Clone, Copy)]
pub enum Fault {
    TooWide,
    Unknown,
    Empty,
}
