//! Whether a list of rules derives a body: the list is read as `searching::showing` writes it, leftmost rule first, and nothing is searched for.
//!
//! `rules`, `forms` and `body` are the tables of crate `derivation`.
#![tactic(auto)]

ghost use Rattle.std.specs.Prelude.{◌≡◌, ◌<◌, get_or};
ghost use Rattle.forest.specs.Limits.{most_non_terminals, unused};
ghost use Rattle.following.specs.code.Follows.{Follows, FollowsPre};
ghost use Rattle.following.specs.code.Steps.{ChainPre, Chained, FitPre, Fitted, UsePre, Uses, usable};

use derivation::START;
use derivation::masks::{has, put};
use derivation::matching::alike;
use derivation::rules::{non_terminal_at, rules_in, start_at};
use forest::limits::UNUSED;
use terms::codes::NON_TERMINAL;
use terms::{code_at, size_at, value_at};

// A rule that is no chain rule, to which the chain rules of a list lead, and the place of the list after it.
#[derive(Clone, Copy)]
struct Last {
    rule: usize,
    at: usize,
}

// The rule at a place of the list; past its end a number that no rule has.
fn rule_in(list: &[u16], at: usize) -> usize
    ensures { result ≡ get_or list.now at unused }
{
    if at >= list.len() {
        return UNUSED as usize;
    }
    list[at] as usize
}

// Whether a rule is one of a non-terminal that was not used at this place.
fn usable(rules: &[u64], rule: usize, nonterminal: u64, used: u64) -> bool
    requires { nonterminal < most_non_terminals }
    ensures { result ≡ usable rules.now rule nonterminal used }
{
    (rule < rules_in(rules))
        & (non_terminal_at(rules, rule) == nonterminal)
        & !has(used, nonterminal)
}

// Goes through the chain rules that the list has from `at` on, no non-terminal twice, to a rule that is none, if there is one.
fn follow_chain(
    rules: &[u64],
    forms: &[u64],
    list: &[u16],
    nonterminal: u64,
    at: usize,
) -> Option<Last>
    requires { ChainPre rules.now forms.now list.now nonterminal at }
    ensures { Chained rules.now forms.now list.now nonterminal at result }
{
    let mut current = nonterminal;
    let mut used: u64 = 0;
    let mut next = at;
    loop {
        let rule = rule_in(list, next);
        if !usable(rules, rule, current, used) {
            return None;
        }
        next += 1;
        let start = start_at(rules, rule);
        if code_at(forms, start) != NON_TERMINAL {
            return Some(Last { rule, at: next });
        }
        used = put(used, current);
        current = value_at(forms, start);
    }
}

// The place of the list after the rules from `at` on that derive the tree at a node from a non-terminal, if they do.
#[cycle(fit_rule_use_rule)]
fn use_rule(
    rules: &[u64],
    forms: &[u64],
    body: &[u64],
    list: &[u16],
    node: usize,
    nonterminal: u64,
    at: usize,
) -> Option<usize>
    requires { UsePre rules.now forms.now body.now list.now node nonterminal at }
    ensures { Uses rules.now forms.now body.now list.now node nonterminal at result }
{
    let last = follow_chain(rules, forms, list, nonterminal, at)?;
    fit_rule(rules, forms, body, list, last.rule, node, last.at)
}

// The place of the list after the rules from `at` on that derive the tree at a node from the right side of a rule, if they do.
#[cycle(fit_rule_use_rule)]
fn fit_rule(
    rules: &[u64],
    forms: &[u64],
    body: &[u64],
    list: &[u16],
    rule: usize,
    node: usize,
    at: usize,
) -> Option<usize>
    requires { FitPre rules.now forms.now body.now list.now rule node at }
    ensures { Fitted rules.now forms.now body.now list.now rule node at result }
{
    let start = start_at(rules, rule);
    let end = start + size_at(forms, start);
    let mut here = node;
    let mut next = at;
    for place in start..end {
        if code_at(forms, place) == NON_TERMINAL {
            next = use_rule(rules, forms, body, list, here, value_at(forms, place), next)?;
            here += size_at(body, here);
        } else {
            if !alike(forms, place, body, here) {
                return None;
            }
            here += 1;
        }
    }
    Some(next)
}

// Whether the whole list derives the body from the start, with no non-terminal twice at one place.
pub fn follows(rules: &[u64], forms: &[u64], body: &[u64], list: &[u16]) -> bool
    requires { FollowsPre rules.now forms.now body.now }
    ensures { Follows rules.now forms.now body.now list.now result }
{
    let found = use_rule(rules, forms, body, list, 0, START, 0);
    found.is_some_and(|past| past == list.len())
}
