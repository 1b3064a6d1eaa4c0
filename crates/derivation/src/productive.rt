//! Which non-terminals of a grammar derive a term: "A non-terminal is refused exactly if it derives no term".
//!
//! `rules` and `forms` are the tables of a grammar; `arguments` has the sorts of its function's arguments.
ghost use Rattle.std.specs.Prelude.{◌≡◌};
ghost use Rattle.forest.specs.Lists.{among};
ghost use Rattle.derivation.specs.code.Productive.{AsksDead, AsksForm, AsksNode, FindsDead, FormTested, Found, Grown, Passed, Tabled, yields_at};

use crate::masks::{has, put};
use crate::rules::{non_terminal_at, rules_in, start_at};
use terms::codes::{ANY_ARGUMENT, NON_TERMINAL, head_of, kind_of};
use terms::{code_at, size_at, value_at};

// Whether one of the function's arguments has a sort.
fn has_sort(arguments: &[u64], sort: u64) -> bool
    ensures { result ≡ among sort arguments.now }
{
    arguments.contains(&sort)
}

// Whether a node of a rule has something to stand for it, where the non-terminals of `found` derive a term.
fn node_yields(forms: &[u64], arguments: &[u64], found: u64, node: usize) -> bool
    requires { AsksNode forms.now node }
    ensures { result ≡ yields_at forms.now arguments.now found node }
{
    let code = code_at(forms, node);
    let kind = kind_of(code);
    if kind == NON_TERMINAL {
        return has(found, value_at(forms, node));
    }
    if kind == ANY_ARGUMENT {
        return has_sort(arguments, head_of(code));
    }
    true
}

// Whether each node of a rule has.
fn form_yields(rules: &[u64], forms: &[u64], arguments: &[u64], found: u64, rule: usize) -> bool
    requires { AsksForm rules.now forms.now arguments.now rule }
    ensures { FormTested rules.now forms.now arguments.now found rule result }
{
    let start = start_at(rules, rule);
    let end = start + size_at(forms, start);
    for place in start..end {
        if !node_yields(forms, arguments, found, place) {
            return false;
        }
    }
    true
}

// The non-terminals that are found, and with them that of a rule that yields.
fn with_rule(rules: &[u64], forms: &[u64], arguments: &[u64], found: u64, rule: usize) -> u64
    requires { AsksForm rules.now forms.now arguments.now rule }
    ensures { Grown rules.now forms.now arguments.now found rule result }
{
    let nonterminal = non_terminal_at(rules, rule);
    if has(found, nonterminal) {
        return found;
    }
    if form_yields(rules, forms, arguments, found, rule) {
        return put(found, nonterminal);
    }
    found
}

// One pass over the rules: the non-terminal of each rule that yields is found from there on.
fn one_pass(rules: &[u64], forms: &[u64], arguments: &[u64], found: u64) -> u64
    requires { Tabled rules.now forms.now arguments.now }
    ensures { Passed rules.now forms.now arguments.now found result }
{
    let mut grown = found;
    for rule in 0..rules_in(rules) {
        grown = with_rule(rules, forms, arguments, grown, rule);
    }
    grown
}

// The non-terminals that derive a term, of a grammar that has so many: a pass that adds none is the last.
fn productive(rules: &[u64], forms: &[u64], arguments: &[u64], count: usize) -> u64
    requires { Tabled rules.now forms.now arguments.now }
    ensures { Found rules.now forms.now arguments.now count result }
{
    let mut found: u64 = 0;
    for _pass in 0..count {
        let grown = one_pass(rules, forms, arguments, found);
        if grown == found {
            return found;
        }
        found = grown;
    }
    found
}

// The first non-terminal that derives no term, of a grammar that has so many; their number where each derives one.
pub fn first_dead(rules: &[u64], forms: &[u64], arguments: &[u64], count: usize) -> usize
    requires { AsksDead rules.now forms.now arguments.now count }
    ensures { FindsDead rules.now forms.now arguments.now count result }
{
    let found = productive(rules, forms, arguments, count);
    for nonterminal in 0..count {
        if !has(found, nonterminal as u64) {
            return nonterminal;
        }
    }
    count
}
