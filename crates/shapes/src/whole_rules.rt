//! What is not carried where whole rules may be begun by `!`.
ghost use Rattle.std.specs.Prelude.{◌≤◌, ◌≡◌};
ghost use Rattle.forest.specs.Forest.{none, tree};
ghost use Rattle.lexemes.specs.code.Standing.{Between, ItemAt, ListAt};
ghost use Rattle.shapes.specs.Carried.{any_of, any_uncarried, command_uncarried, ends_in_list, group_uncarried, last_by, rule_uncarried};
ghost use Rattle.shapes.specs.code.Lists.{EndsInList};

use crate::annotations::is_annotated;
use crate::carried::{any_uncarried, uncarried_start};
use crate::lists::{count_in, item_in};
use lexemes::codes::SYNTH_FUN;
use lexemes::items::item_at;
use lexemes::{OPEN, code_at, next_at};

// Whether anything that a list holds is not carried.
fn held_uncarried(lexemes: &[u64], at: usize) -> bool
    requires { ListAt lexemes.now at }
    ensures { (here : ListAt lexemes.now at) → result ≡ any_uncarried here.operands }
{
    any_uncarried(lexemes, at + 1, next_at(lexemes, at) - 1)
}

// Whether an item, or anything in it, is not carried.
fn item_uncarried(lexemes: &[u64], at: usize) -> bool
    requires { ItemAt lexemes.now at }
    ensures { (here : ItemAt lexemes.now at) → result ≡ any_uncarried (tree here.label here.operands none) }
{
    any_uncarried(lexemes, at, next_at(lexemes, at))
}

// Whether anything in a whole rule is not carried.
fn rule_uncarried(lexemes: &[u64], at: usize) -> bool
    requires { ItemAt lexemes.now at }
    ensures { (here : ItemAt lexemes.now at) → result ≡ rule_uncarried here.label here.operands }
{
    if is_annotated(lexemes, at) {
        return held_uncarried(lexemes, at);
    }
    item_uncarried(lexemes, at)
}

// Whether anything in the whole rules from a word to the bracket that closes their list is not carried.
fn rules_uncarried(lexemes: &[u64], first: usize, close: usize) -> bool
    requires { Between lexemes.now first close }
    ensures { (b : Between lexemes.now first close) → result ≡ any_of rule_uncarried b.items }
{
    let mut at = first;
    while at < close {
        if rule_uncarried(lexemes, at) {
            return true;
        }
        at = next_at(lexemes, at);
    }
    false
}

// Whether a list has n items and one more, which is a list.
fn ends_in_list(lexemes: &[u64], at: usize, n: usize) -> bool
    requires { ListAt lexemes.now at × (n ≤ 5) }
    ensures { (here : ListAt lexemes.now at) → result ≡ ends_in_list n here.operands }
{
    if count_in(lexemes, at) != n + 1 {
        return false;
    }
    code_at(lexemes, item_in(lexemes, at, n)) == OPEN
}

// Whether anything is not carried in the first two items of a list whose third is a list of whole rules, or in that.
fn rules_part(lexemes: &[u64], at: usize) -> bool
    requires { EndsInList lexemes.now at 2 }
    ensures { (here : ListAt lexemes.now at) → result ≡ last_by 2 rule_uncarried here.operands }
{
    let last = item_at(lexemes, at + 1, next_at(lexemes, at) - 1, 2);
    any_uncarried(lexemes, at + 1, last)
        | uncarried_start(lexemes, last)
        | rules_uncarried(lexemes, last + 1, next_at(lexemes, last) - 1)
}

// Whether anything in what a grammar lists of a non-terminal is not carried.
fn group_uncarried(lexemes: &[u64], at: usize) -> bool
    requires { ItemAt lexemes.now at }
    ensures { (here : ItemAt lexemes.now at) → result ≡ group_uncarried here.label here.operands }
{
    if code_at(lexemes, at) != OPEN {
        return item_uncarried(lexemes, at);
    }
    if !ends_in_list(lexemes, at, 2) {
        return item_uncarried(lexemes, at);
    }
    uncarried_start(lexemes, at) | rules_part(lexemes, at)
}

// Whether anything in such groups from a word to the bracket that closes their list is not carried.
fn groups_uncarried(lexemes: &[u64], first: usize, close: usize) -> bool
    requires { Between lexemes.now first close }
    ensures { (b : Between lexemes.now first close) → result ≡ any_of group_uncarried b.items }
{
    let mut at = first;
    while at < close {
        if group_uncarried(lexemes, at) {
            return true;
        }
        at = next_at(lexemes, at);
    }
    false
}

// Whether anything is not carried in the first five items of a list whose sixth is a list of groups, or in that.
fn groups_part(lexemes: &[u64], at: usize) -> bool
    requires { EndsInList lexemes.now at 5 }
    ensures { (here : ListAt lexemes.now at) → result ≡ last_by 5 group_uncarried here.operands }
{
    let last = item_at(lexemes, at + 1, next_at(lexemes, at) - 1, 5);
    any_uncarried(lexemes, at + 1, last)
        | uncarried_start(lexemes, last)
        | groups_uncarried(lexemes, last + 1, next_at(lexemes, last) - 1)
}

// Whether anything in a carried command is not carried, with the feature or without.
pub(crate) fn command_uncarried(lexemes: &[u64], at: usize, weights: bool) -> bool
    requires { ListAt lexemes.now at }
    ensures { (here : ListAt lexemes.now at) → result ≡ command_uncarried weights here.operands }
{
    if !(weights & (code_at(lexemes, at + 1) == SYNTH_FUN)) {
        return held_uncarried(lexemes, at);
    }
    if !ends_in_list(lexemes, at, 5) {
        return held_uncarried(lexemes, at);
    }
    groups_part(lexemes, at)
}
