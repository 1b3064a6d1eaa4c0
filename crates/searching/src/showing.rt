//! The derivation that is shown: the numbers of the rules used, leftmost first, as the choices of the nodes lead to them.
ghost use Rattle.searching.specs.code.Showing.{EmitPre, Emits, FollowPre, Follows, ShowPre, Shows, SpreadPre, Spreads};

use crate::filling::fill_masks;
use crate::masks::{mask_at, rank_at};
use derivation::START;
use derivation::masks::has;
use derivation::rules::start_at;
use forest::limits::NON_TERMINALS;
use terms::codes::NON_TERMINAL;
use terms::{code_at, size_at, value_at};

// Where the next rule is written, and the rule that is no chain rule.
#[derive(Clone, Copy)]
struct Followed {
    at: usize,
    rule: usize,
}

// Writes the chain rules that the choices of a node lead through from a non-terminal, and the rule at their end.
fn follow(
    rules: &[u64],
    forms: &[u64],
    choices: &[u16],
    node: usize,
    nonterminal: u64,
    shown: &mut [u16],
    at: usize,
) -> Followed
    requires { FollowPre rules.now forms.now choices.now node nonterminal shown.old at }
    ensures { Follows rules.now forms.now choices.now
        node nonterminal shown.old at shown.new result.at result.rule }
{
    let mut current = nonterminal;
    let mut next = at;
    loop {
        let rule = choices[NON_TERMINALS * node + current as usize] as usize;
        shown[next] = rule as u16;
        next += 1;
        let start = start_at(rules, rule);
        if code_at(forms, start) != NON_TERMINAL {
            return Followed {
                at: next,
                rule: rule,
            };
        }
        current = value_at(forms, start);
    }
}

// Writes the least derivation of the tree at a node from a non-terminal, from `at` on; returns the next free place.
#[cycle(emit_spread)]
fn emit(
    rules: &[u64],
    forms: &[u64],
    body: &[u64],
    choices: &[u16],
    node: usize,
    nonterminal: u64,
    shown: &mut [u16],
    at: usize,
) -> usize
    requires { EmitPre rules.now forms.now body.now choices.now node nonterminal shown.old at }
    ensures { Emits rules.now forms.now body.now choices.now node
        nonterminal shown.old at shown.new result }
{
    let end = follow(rules, forms, choices, node, nonterminal, shown, at);
    spread(rules, forms, body, choices, node, end.rule, shown, end.at)
}

// Writes the least derivations for the non-terminals of a rule, which is no chain rule, at a node.
#[cycle(emit_spread)]
fn spread(
    rules: &[u64],
    forms: &[u64],
    body: &[u64],
    choices: &[u16],
    node: usize,
    rule: usize,
    shown: &mut [u16],
    at: usize,
) -> usize
    requires { SpreadPre rules.now forms.now body.now choices.now node rule shown.old at }
    ensures { Spreads rules.now forms.now body.now choices.now
        node rule shown.old at shown.new result }
{
    let start = start_at(rules, rule);
    let end = start + size_at(forms, start);
    let mut here = node;
    let mut next = at;
    for place in start..end {
        if code_at(forms, place) == NON_TERMINAL {
            next = emit(
                rules,
                forms,
                body,
                choices,
                here,
                value_at(forms, place),
                shown,
                next,
            );
            here += size_at(body, here);
        } else {
            here += 1;
        }
    }
    next
}

// The rank of the least list by which the start derives the body, if there is one, which goes to the front of the list.
pub fn show(
    rules: &[u64],
    forms: &[u64],
    body: &[u64],
    masks: &mut [u64],
    choices: &mut [u16],
    shown: &mut [u16],
) -> Option<u64>
    requires { ShowPre rules.now forms.now body.now masks.old choices.old shown.old }
    ensures { Shows rules.now forms.now body.now masks.old choices.old
        shown.old shown.new result }
{
    fill_masks(rules, forms, body, masks, choices);
    if !has(mask_at(masks, 0), START) {
        return None;
    }
    emit(rules, forms, body, choices, 0, START, shown, 0);
    Some(rank_at(masks, 0, START))
}
