//! The least word at fault in the sorts of a function's header, and of its grammar.
ghost use Rattle.std.specs.Prelude.{◌≡◌};
ghost use Rattle.shapes.specs.Shapes.{group_shape, is_list_of, pair_shape, rule_shape};
ghost use Rattle.written_sorts.specs.code.Places.{ShapedAt};
ghost use Rattle.written_sorts.specs.code.Headers.{HeaderAt, SynthFunAt};
ghost use Rattle.written_sorts.specs.Written.{grammar_sorts, group_place, header_place, least_in, pair_place, rule_place};

use crate::Fault;
use crate::places::{pairs_place, sort_place};
use forest::numbers::least;
use lexemes::next_at;
use shapes::rules::is_pattern;

// The least word at fault in the sorts of a list of pairs.
fn pairs_in(lexemes: &[u64], list: usize, fault: Fault, nowhere: usize) -> usize
    requires { ShapedAt (is_list_of pair_shape) lexemes.now list }
    ensures { (p : ShapedAt (is_list_of pair_shape) lexemes.now list) → result ≡ least_in nowhere (pair_place fault nowhere) p.here.operands }
{
    pairs_place(
        lexemes,
        list + 1,
        next_at(lexemes, list) - 1,
        fault,
        nowhere,
    )
}

// The least word at fault in the sorts of the arguments and of the result in a function's header.
pub fn header_place(lexemes: &[u64], at: usize, fault: Fault, nowhere: usize) -> usize
    requires { HeaderAt lexemes.now at }
    ensures { (p : HeaderAt lexemes.now at) → result ≡ header_place fault nowhere p.here.operands }
{
    let arguments = next_at(lexemes, at + 2);
    let result = next_at(lexemes, arguments);
    let within = pairs_in(lexemes, arguments, fault, nowhere);
    let own = sort_place(lexemes, result, fault, nowhere);
    least(within, own)
}

// The word at fault in the sort of a rule `(Constant σ)` or `(Variable σ)`.
fn rule_place(lexemes: &[u64], at: usize, fault: Fault, nowhere: usize) -> usize
    requires { ShapedAt rule_shape lexemes.now at }
    ensures { (p : ShapedAt rule_shape lexemes.now at) → result ≡ rule_place fault nowhere p.here.label p.here.operands }
{
    if is_pattern(lexemes, at) {
        return sort_place(lexemes, at + 2, fault, nowhere);
    }
    nowhere
}

// The least word at fault in the sorts of a list of rules.
fn rules_in(lexemes: &[u64], list: usize, fault: Fault, nowhere: usize) -> usize
    requires { ShapedAt (is_list_of rule_shape) lexemes.now list }
    ensures { (p : ShapedAt (is_list_of rule_shape) lexemes.now list) → result ≡ least_in nowhere (rule_place fault nowhere) p.here.operands }
{
    let close = next_at(lexemes, list) - 1;
    let mut place = nowhere;
    let mut at = list + 1;
    while at < close {
        place = least(place, rule_place(lexemes, at, fault, nowhere));
        at = next_at(lexemes, at);
    }
    place
}

// The least word at fault in the sorts of what a grammar lists of a non-terminal.
fn group_place(lexemes: &[u64], at: usize, fault: Fault, nowhere: usize) -> usize
    requires { ShapedAt group_shape lexemes.now at }
    ensures { (p : ShapedAt group_shape lexemes.now at) → result ≡ group_place fault nowhere p.here.label p.here.operands }
{
    let sort = at + 2;
    let rules = next_at(lexemes, sort);
    let within = rules_in(lexemes, rules, fault, nowhere);
    let own = sort_place(lexemes, sort, fault, nowhere);
    least(own, within)
}

// The least word at fault in the sorts of a list of what a grammar lists of each non-terminal.
fn groups_in(lexemes: &[u64], list: usize, fault: Fault, nowhere: usize) -> usize
    requires { ShapedAt (is_list_of group_shape) lexemes.now list }
    ensures { (p : ShapedAt (is_list_of group_shape) lexemes.now list) → result ≡ least_in nowhere (group_place fault nowhere) p.here.operands }
{
    let close = next_at(lexemes, list) - 1;
    let mut place = nowhere;
    let mut at = list + 1;
    while at < close {
        place = least(place, group_place(lexemes, at, fault, nowhere));
        at = next_at(lexemes, at);
    }
    place
}

// The least word at fault in the sorts of the grammar of a `synth-fun`.
pub fn grammar_place(lexemes: &[u64], at: usize, fault: Fault, nowhere: usize) -> usize
    requires { SynthFunAt lexemes.now at }
    ensures { (p : SynthFunAt lexemes.now at) → result ≡ grammar_sorts fault nowhere p.here.operands }
{
    let result = next_at(lexemes, next_at(lexemes, at + 2));
    let non_terminals = next_at(lexemes, result);
    let groups = next_at(lexemes, non_terminals);
    let declared = pairs_in(lexemes, non_terminals, fault, nowhere);
    let listed = groups_in(lexemes, groups, fault, nowhere);
    least(declared, listed)
}
