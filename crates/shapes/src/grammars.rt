//! Shapes of rules and of what a grammar lists of a non-terminal.
ghost use Rattle.std.specs.Prelude.{◌≡◌};
ghost use Rattle.lexemes.specs.code.Standing.{Between, ItemAt};
ghost use Rattle.shapes.specs.Shapes.{all, group_shape, is_list_of, rule_shape};

use crate::annotations::term_rule_shape;
use crate::lists::{count_in, item_in, symbol_in};
use crate::rules::is_pattern;
use crate::sorts::sort_shape;
use lexemes::{OPEN, code_at, next_at};

// Whether an item is a rule.
fn rule_shape(lexemes: &[u64], at: usize) -> bool
    requires { ItemAt lexemes.now at }
    ensures { (here : ItemAt lexemes.now at) → result ≡ rule_shape here.label here.operands }
{
    if !is_pattern(lexemes, at) {
        return term_rule_shape(lexemes, at);
    }
    if count_in(lexemes, at) != 2 {
        return false;
    }
    sort_shape(lexemes, item_in(lexemes, at, 1))
}

// Whether all of the items from a word to the bracket that closes their list are rules.
fn all_rules(lexemes: &[u64], first: usize, close: usize) -> bool
    requires { Between lexemes.now first close }
    ensures { (b : Between lexemes.now first close) → result ≡ all rule_shape b.items }
{
    let mut at = first;
    while at < close {
        if !rule_shape(lexemes, at) {
            return false;
        }
        at = next_at(lexemes, at);
    }
    true
}

// Whether an item is a list of rules.
fn rules_shape(lexemes: &[u64], at: usize) -> bool
    requires { ItemAt lexemes.now at }
    ensures { (here : ItemAt lexemes.now at) → result ≡ is_list_of rule_shape here.label here.operands }
{
    if code_at(lexemes, at) != OPEN {
        return false;
    }
    all_rules(lexemes, at + 1, next_at(lexemes, at) - 1)
}

// Whether an item is a non-terminal's name, its sort and a list of rules.
fn group_shape(lexemes: &[u64], at: usize) -> bool
    requires { ItemAt lexemes.now at }
    ensures { (here : ItemAt lexemes.now at) → result ≡ group_shape here.label here.operands }
{
    if code_at(lexemes, at) != OPEN {
        return false;
    }
    if count_in(lexemes, at) != 3 {
        return false;
    }
    symbol_in(lexemes, at, 0)
        & sort_shape(lexemes, item_in(lexemes, at, 1))
        & rules_shape(lexemes, item_in(lexemes, at, 2))
}

// Whether all of the items from a word to the bracket that closes their list are such groups.
fn all_groups(lexemes: &[u64], first: usize, close: usize) -> bool
    requires { Between lexemes.now first close }
    ensures { (b : Between lexemes.now first close) → result ≡ all group_shape b.items }
{
    let mut at = first;
    while at < close {
        if !group_shape(lexemes, at) {
            return false;
        }
        at = next_at(lexemes, at);
    }
    true
}

// Whether an item is a list of such groups.
pub fn groups_shape(lexemes: &[u64], at: usize) -> bool
    requires { ItemAt lexemes.now at }
    ensures { (here : ItemAt lexemes.now at) → result ≡ is_list_of group_shape here.label here.operands }
{
    if code_at(lexemes, at) != OPEN {
        return false;
    }
    all_groups(lexemes, at + 1, next_at(lexemes, at) - 1)
}
