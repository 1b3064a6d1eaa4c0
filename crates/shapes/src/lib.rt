//! Shapes of commands, answer 5, and what is not carried, answer 6.
#![tactic(auto)]

pub mod annotations;
pub mod carried;
pub mod commands;
pub mod features;
pub mod forms;
mod grammars;
pub mod lists;
pub mod rules;
mod sorts;
mod terms;
mod whole_rules;
