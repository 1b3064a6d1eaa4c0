//! The derivations of all bodies; the points and the run.
#![tactic(auto)]

pub mod derive;
pub mod evaluate;
