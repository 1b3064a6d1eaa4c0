//! Values of the operators on numbers of a width from 1 to 64, and the operator table.
#![tactic(auto)]

pub mod operators;
pub mod rules;
mod signed;
pub mod sorting;
mod truth;
mod vectors;

pub use vectors::ones;
