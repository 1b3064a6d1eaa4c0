//! The start of a grammar, and its non-terminals listed again.
ghost use Rattle.std.specs.Prelude.{◌≡◌, eqb};
ghost use Rattle.forest.specs.Forest.{count};
ghost use Rattle.lexemes.specs.code.Standing.{ListAt};
ghost use Rattle.grammars.specs.code.Listed.{GroupAt, GroupsAt, ListingTested, PairsAt, StartTested, TestsGroup, TestsName, rules_misfit};

use forest::numbers::least;
use lexemes::next_at;
use names::spelled::bytes_at;
use names::table::{NON_TERMINALS, find_name, sort_in};
use written_sorts::places::sort_of;

// Whether the list at a word holds nothing.
fn is_empty(lexemes: &[u64], list: usize) -> bool
    requires { ListAt lexemes.now list }
    ensures { (x : ListAt lexemes.now list) → result ≡ eqb (count x.operands) 0 }
{
    let close = next_at(lexemes, list) - 1;
    close == list + 1
}

// The word at fault in the start of a grammar, whose non-terminals are declared in the list at a word: it has the function's sort; `nowhere` where there is
// none.
pub fn start_misfit(lexemes: &[u64], at: usize, res: u64, nowhere: usize) -> usize
    requires { PairsAt lexemes.now at }
    ensures { (p : PairsAt lexemes.now at) → StartTested p res nowhere result }
{
    let pair = at + 1;
    if is_empty(lexemes, at) {
        return pair;
    }
    if sort_of(lexemes, pair + 2) == res {
        return nowhere;
    }
    pair + 1
}

// The listed name of a group whose name and sort are not those in a row; `nowhere` where they are.
fn name_misfit(
    text: &[u8],
    lexemes: &[u64],
    names: &[u8],
    group: usize,
    row: usize,
    nowhere: usize,
) -> usize
    requires { GroupAt text.now lexemes.now names.now group row }
    ensures { TestsName text.now lexemes.now names.now group row nowhere result }
{
    let found = find_name(names, row, 1, bytes_at(text, lexemes, group + 1));
    let sort = sort_of(lexemes, group + 2);
    if (found == 0) & (sort == sort_in(names, row)) {
        return nowhere;
    }
    group + 1
}

// The bracket that closes a list of rules in which there is none; `nowhere` where there is one.
fn rules_misfit(lexemes: &[u64], rules: usize, nowhere: usize) -> usize
    requires { ListAt lexemes.now rules }
    ensures { (x : ListAt lexemes.now rules) → result ≡ rules_misfit nowhere x.close x.operands }
{
    if is_empty(lexemes, rules) {
        return rules + 1;
    }
    nowhere
}

// The least word at fault in a group that lists the non-terminal in a row.
fn group_misfit(
    text: &[u8],
    lexemes: &[u64],
    names: &[u8],
    group: usize,
    row: usize,
    nowhere: usize,
) -> usize
    requires { GroupAt text.now lexemes.now names.now group row }
    ensures { TestsGroup text.now lexemes.now names.now group row nowhere result }
{
    let own = name_misfit(text, lexemes, names, group, row, nowhere);
    let rules = next_at(lexemes, group + 2);
    least(own, rules_misfit(lexemes, rules, nowhere))
}

// The least word at fault in the list at a word, in which the declared non-terminals, `listed` of them, are listed again with their rules; `nowhere` where
// there is none.
pub fn listing_misfit(
    text: &[u8],
    lexemes: &[u64],
    names: &[u8],
    at: usize,
    listed: usize,
    nowhere: usize,
) -> usize
    requires { GroupsAt text.now lexemes.now names.now at listed }
    ensures { (p : GroupsAt text.now lexemes.now names.now at listed) → ListingTested p nowhere result }
{
    let close = next_at(lexemes, at) - 1;
    let mut place = usize::MAX;
    let mut group = at + 1;
    for row in NON_TERMINALS..NON_TERMINALS + listed {
        if group >= close {
            return least(place, close);
        }
        place = least(
            place,
            group_misfit(text, lexemes, names, group, row, nowhere),
        );
        group = next_at(lexemes, group);
    }
    if group < close {
        return least(place, group + 1);
    }
    least(place, nowhere)
}
