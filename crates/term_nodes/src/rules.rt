//! The rules of a grammar's groups, gathered one after the other.
ghost use Rattle.std.specs.Prelude.{[], ◌∷◌, ◌≡◌, ◌+◌, ◌*◌, ◌≤◌, length};
ghost use Rattle.std.proofs.lemmas.List.Edits.{sets};
ghost use Rattle.derivation.specs.code.Rules.{rule_width};
ghost use Rattle.forest.specs.Limits.{most_nodes, most_rules};
ghost use Rattle.term_nodes.specs.code.RuleGathering.{GathersGroup, GathersOne, GathersRules, GroupsBetween, RuleAt, RulesBetween};

use crate::Gathered;
use crate::gather::gather_rule;
use crate::limits::word_past;
use crate::weights::{weight_of, weights_past};
use derivation::RULE;
use forest::limits::{NODES, RULES};
use forest::numbers::least;
use lexemes::next_at;

// Writes where a rule starts, its non-terminal, and its weight.
fn put_rule(rules: &mut [u64], rule: usize, start: usize, head: usize, weight: u64)
    requires { rule_width * rule + rule_width ≤ length rules.old }
    ensures { rules.new ≡ sets rules.old (rule_width * rule) (start ∷ head ∷ weight ∷ []) }
{
    let row = RULE * rule;
    rules[row] = start as u64;
    rules[row + 1] = head as u64;
    rules[row + 2] = weight;
}

// Gathers the rule at a word behind those that are gathered already.
fn gather_one(
    lexemes: &[u64],
    at: usize,
    head: usize,
    raw: &mut [u64],
    rules: &mut [u64],
    nowhere: usize,
    already: Gathered,
) -> Gathered
    requires { RuleAt lexemes.now at nowhere most_rules most_nodes raw.old rules.old already }
    ensures { GathersOne lexemes.now at head nowhere raw.old rules.old already
        raw.new rules.new result }
{
    let start = already.row;
    let rule = already.rule;
    let row = gather_rule(lexemes, at, raw, start);
    let within = word_past(lexemes, raw, start, row, NODES, nowhere);
    let past = least(within, weights_past(lexemes, at, nowhere));
    let place = least(already.place, past);
    let counted = rule + 1;
    if rule < RULES {
        put_rule(rules, rule, start, head, weight_of(lexemes, at));
        return Gathered {
            row,
            rule: counted,
            place,
        };
    }
    if rule == RULES {
        return Gathered {
            row,
            rule: counted,
            place: least(place, at),
        };
    }
    Gathered {
        row,
        rule: counted,
        place,
    }
}

// Gathers the rules of a non-terminal, which stand from a word to the bracket that closes their list, behind those that are gathered already.
fn gather_group(
    lexemes: &[u64],
    first: usize,
    close: usize,
    head: usize,
    raw: &mut [u64],
    rules: &mut [u64],
    nowhere: usize,
    already: Gathered,
) -> Gathered
    requires { RulesBetween lexemes.now first close nowhere most_rules most_nodes raw.old rules.old already }
    ensures { GathersGroup lexemes.now first close head nowhere raw.old rules.old already
        raw.new rules.new result }
{
    let mut found = already;
    let mut at = first;
    while at < close {
        found = gather_one(lexemes, at, head, raw, rules, nowhere, found);
        at = next_at(lexemes, at);
    }
    found
}

// Gathers the rules of the groups that stand from a word to the bracket that closes their list: their nodes, where each starts, its non-terminal and its
// weight, and the least word past a limit.
pub fn gather_rules(
    lexemes: &[u64],
    first: usize,
    close: usize,
    raw: &mut [u64],
    rules: &mut [u64],
    nowhere: usize,
) -> Gathered
    requires { GroupsBetween lexemes.now first close most_rules raw.old rules.old }
    ensures { GathersRules lexemes.now first close nowhere raw.old rules.old
        raw.new rules.new result }
{
    let mut found = Gathered {
        row: 0,
        rule: 0,
        place: nowhere,
    };
    let mut head = 0;
    let mut at = first;
    while at < close {
        let list = next_at(lexemes, at + 2);
        found = gather_group(
            lexemes,
            list + 1,
            next_at(lexemes, list) - 1,
            head,
            raw,
            rules,
            nowhere,
            found,
        );
        head += 1;
        at = next_at(lexemes, at);
    }
    found
}
