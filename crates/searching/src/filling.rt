//! Which non-terminals derive the tree at each node of the body, the rank of the least list of each, and the rule that it begins with.
ghost use Rattle.std.specs.Prelude.{◌≡◌, ◌&&◌, ◌||◌, not, ◌+◌, ◌/◌, ◌<◌, eqb, ltb, length};
ghost use Rattle.forest.specs.Limits.{most_rules};
ghost use Rattle.derivation.specs.code.Rules.{rule_width};
ghost use Rattle.searching.specs.code.Search.{Asks};
ghost use Rattle.searching.specs.code.Filling.{AllExact, Chose, Live, MasksPre, NodeIs, Price, PricedLive, Prices, RowPre, SettlePre, Settles};

use crate::masks::{MARKS, MASK};
use crate::matching::{PER_WEIGHT, rank_of};
use crate::{copy, filled};
use derivation::masks::{has, put};
use derivation::rules::{non_terminal_at, rules_in, start_at, weight_at};
use forest::limits::{NON_TERMINALS, RULES};
use forest::numbers::entry_at;
use terms::codes::NON_TERMINAL;
use terms::{ROW, code_at, value_at};

// The rule that leads to the least list, and the rank of that list.
#[derive(Clone, Copy)]
struct Choice {
    rule: usize,
    rank: u64,
}

// The ranks at a node of the rules that are no chain rules; `live` gets the rules that can add something, chain rules and those with a rank. Returns how many.
fn price_rules(
    rules: &[u64],
    forms: &[u64],
    body: &[u64],
    masks: &[u64],
    node: usize,
    costs: &mut [u64; RULES],
    live: &mut [u16; RULES],
) -> usize
    requires { Asks rules.now forms.now body.now masks.now node × (length costs.old ≡ most_rules) × (length live.old ≡ most_rules) }
    ensures { PricedLive rules.now forms.now body.now masks.now node
        (length rules.now / rule_width) costs.new live.new result }
{
    let count = rules_in(rules);
    let mut kept: usize = 0;
    for rule in 0..count {
        if code_at(forms, start_at(rules, rule)) == NON_TERMINAL {
            live[kept] = rule as u16;
            kept += 1;
        } else {
            let cost = rank_of(rules, forms, body, masks, node, rule);
            costs[rule] = cost;
            if cost != 0 {
                live[kept] = rule as u16;
                kept += 1;
            }
        }
    }
    kept
}

// The rank of the list that a rule leads to, where the non-terminals of `known` have their ranks; 0 if it adds nothing.
fn price(rules: &[u64], forms: &[u64], costs: &[u64], row: &[u64], known: u64, rule: usize) -> u64
    requires { Prices rules.now forms.now row.now × (rule < length rules.now / rule_width) }
    ensures { Price rules.now forms.now costs.now row.now known rule result }
{
    if has(known, non_terminal_at(rules, rule)) {
        return 0;
    }
    let start = start_at(rules, rule);
    if code_at(forms, start) != NON_TERMINAL {
        return entry_at(costs, rule);
    }
    let next = value_at(forms, start);
    if !has(known, next) {
        return 0;
    }
    PER_WEIGHT * weight_at(rules, rule) + 1 + entry_at(row, next as usize)
}

// Whether a price is one, and less than the least yet, if there is one.
fn better(cost: u64, least: u64) -> bool
    ensures { result ≡ (not (eqb cost 0) && (eqb least 0 || ltb cost least)) }
{
    (cost != 0) & ((least == 0) | (cost < least))
}

// Of the rules of non-terminals that are not known the one of the least price, the first of equals; `live` has all that can add something.
fn choose(
    rules: &[u64],
    forms: &[u64],
    costs: &[u64],
    live: &[u16],
    row: &[u64],
    known: u64,
) -> Option<Choice>
    requires { Prices rules.now forms.now row.now
        × Live rules.now forms.now costs.now (length rules.now / rule_width) live.now (length live.now) }
    ensures { Chose rules.now forms.now costs.now row.now known
        (length rules.now / rule_width) result }
{
    let mut best: usize = 0;
    let mut least: u64 = 0;
    for number in live {
        let rule = *number as usize;
        let cost = price(rules, forms, costs, row, known, rule);
        if better(cost, least) {
            best = rule;
            least = cost;
        }
    }
    if least == 0 {
        return None;
    }
    Some(Choice {
        rule: best,
        rank: least,
    })
}

// Settles the non-terminals of a node one by one, the cheapest first; `row` gets their ranks, `chosen` for each the rule to use.
fn settle(
    rules: &[u64],
    forms: &[u64],
    costs: &[u64],
    live: &[u16],
    row: &mut [u64; MARKS],
    chosen: &mut [u16; NON_TERMINALS],
) -> u64
    requires { SettlePre rules.now forms.now costs.now live.now row.old chosen.old }
    ensures { Settles rules.now forms.now costs.now live.now row.old chosen.old
        row.new chosen.new result }
{
    let mut known: u64 = 0;
    while let Some(choice) = choose(rules, forms, costs, live, row, known) {
        let nonterminal = non_terminal_at(rules, choice.rule);
        chosen[nonterminal as usize] = choice.rule as u16;
        row[nonterminal as usize] = choice.rank;
        known = put(known, nonterminal);
    }
    known
}

// The non-terminals that derive the tree at a node, with their ranks in `row`; `chosen` gets for each the rule to use.
fn derivers(
    rules: &[u64],
    forms: &[u64],
    body: &[u64],
    masks: &[u64],
    node: usize,
    row: &mut [u64; MARKS],
    chosen: &mut [u16; NON_TERMINALS],
) -> u64
    requires { Asks rules.now forms.now body.now masks.now node × RowPre row.old chosen.old }
    ensures { NodeIs rules.now forms.now body.now masks.now node row.new chosen.new result }
{
    let mut costs: [u64; RULES] = filled(0);
    let mut live: [u16; RULES] = filled(0);
    let kept = price_rules(rules, forms, body, masks, node, &mut costs, &mut live);
    settle(rules, forms, &costs, &live[..kept], row, chosen)
}

// Fills in the mask, the ranks and the choices of each node of the body, from the last to the first.
pub fn fill_masks(
    rules: &[u64],
    forms: &[u64],
    body: &[u64],
    masks: &mut [u64],
    choices: &mut [u16],
)
    requires { MasksPre rules.now forms.now body.now masks.old choices.old }
    ensures { AllExact rules.now forms.now body.now masks.new choices.new }
{
    for node in (0..body.len() / ROW).rev() {
        let mut row = [0u64; MARKS];
        let mut chosen = [0u16; NON_TERMINALS];
        let mask = derivers(rules, forms, body, masks, node, &mut row, &mut chosen);
        row[MASK] = mask;
        copy(&row, masks, MARKS * node);
        copy(&chosen, choices, NON_TERMINALS * node);
    }
}
