//! The codes of the words that the reader tells apart, one after the other.
use crate::SYMBOL;
use operators::operators::OPERATORS;

pub const BV: u64 = SYMBOL;

pub const FAIL: u64 = BV + 1;

pub const INFEASIBLE: u64 = FAIL + 1;

// The commands that are carried stand from SET_LOGIC to SET_FEATURE.
pub const SET_LOGIC: u64 = INFEASIBLE + 1;

pub const DECLARE_VAR: u64 = SET_LOGIC + 1;

pub const DEFINE_FUN: u64 = DECLARE_VAR + 1;

pub const SYNTH_FUN: u64 = DEFINE_FUN + 1;

pub const CONSTRAINT: u64 = SYNTH_FUN + 1;

pub const CHECK_SYNTH: u64 = CONSTRAINT + 1;

pub const ASSUME: u64 = CHECK_SYNTH + 1;

pub const SET_FEATURE: u64 = ASSUME + 1;

// How many other commands there are; they stand behind SET_FEATURE and before TRUE.
const OTHER_COMMANDS: u64 = 20;

pub const TRUE: u64 = SET_FEATURE + 1 + OTHER_COMMANDS;

pub const FALSE: u64 = TRUE + 1;

pub const BOOL: u64 = FALSE + 1;

pub const BIT_VEC: u64 = BOOL + 1;

pub const UNDERSCORE: u64 = BIT_VEC + 1;

pub const BANG: u64 = UNDERSCORE + 1;

pub const LET: u64 = BANG + 1;

pub const EXISTS: u64 = LET + 1;

pub const FORALL: u64 = EXISTS + 1;

pub const CONSTANT: u64 = FORALL + 1;

pub const VARIABLE: u64 = CONSTANT + 1;

// The operators stand from FIRST_OPERATOR on, in the order of their table.
pub const FIRST_OPERATOR: u64 = VARIABLE + 1;

pub const EXTRACT: u64 = FIRST_OPERATOR + operators::operators::EXTRACT as u64;

// Any other symbol, but for the words of constants.
pub const OTHER: u64 = FIRST_OPERATOR + OPERATORS as u64;

// The word `bvN` of a constant `(_ bvN n)`, and one of too many digits.
pub const DECIMAL: u64 = OTHER + 1;

pub const LONG_DECIMAL: u64 = DECIMAL + 1;
