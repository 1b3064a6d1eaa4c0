//! Grammars and bodies as tables, and what is read of them: rules, sets of non-terminals, whether a node of a rule and one of a body are alike, and which
//! non-terminals derive a term. Derivations of a body are searched for in crate `searching`.
//!
//! `rules` has three numbers for each rule: the node of `forms` where its right side starts, its non-terminal, and its weight.
//! `forms` and `body` are node tables: the right sides of all rules, and the body.
#![tactic(auto)]

pub mod masks;
pub mod matching;
pub mod productive;
pub mod rules;

// How many numbers a rule has in the table of rules.
pub const RULE: usize = 3;

// The first non-terminal.
pub const START: u64 = 0;
