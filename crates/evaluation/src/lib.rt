//! The meaning of terms in node tables: what they cost, and their values.
//! Points, and the run of terms over them within a budget.
#![tactic(auto)]

pub mod costs;
pub mod evaluator;
pub mod points;
pub mod running;

// What a run finds: all terms true, or the first that is false, or the first whose cost exceeds what is left; each with what is left of the budget, and the
// latter two with the point and the term.
#[derive(Clone, Copy)]
pub enum Ran {
    Passed(u64),
    False(usize, usize, u64),
    Ended(usize, usize, u64),
}

// What a run over points finds, and at how many of them all assumptions held.
#[derive(Clone, Copy)]
pub struct Run {
    pub held: usize,
    pub ran: Ran,
}

// How many constraints and assumptions there are.
#[derive(Clone, Copy)]
pub struct Stated {
    pub constraints: usize,
    pub assumptions: usize,
}

// A point, by its number, at which constraints and assumptions are run.
#[derive(Clone, Copy)]
struct Visit {
    point: usize,
    stated: Stated,
}

// The terms of a turn: from number `first` on, `count` of them, at a point.
#[derive(Clone, Copy)]
struct Turn {
    point: usize,
    first: usize,
    count: usize,
}
