//! Steps for a small stack controller, and the list of steps of a body.
#![tactic(auto)]

pub mod list;

// The four numbers of a step: what it does, and the three behind that.
#[derive(Clone, Copy)]
pub struct Step {
    pub first: u64,
    pub second: u64,
    pub third: u64,
    pub fourth: u64,
}

// Why a list of steps is not run to its one value, and where.
#[derive(Clone, Copy, PartialEq, Eq, Debug)]
pub enum Refusal {
    // A step is refused, or the list ends with anything but one value.
    BadStep(usize),
    // Sorts and arguments are not as many, or a sort is none, or an argument no value of it.
    BadArgument(usize),
}
