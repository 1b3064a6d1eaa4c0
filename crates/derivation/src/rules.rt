//! The table of rules: three numbers for each rule.
ghost use Rattle.std.specs.Prelude.{◌≡◌, ◌/◌, length};
ghost use Rattle.derivation.specs.code.Rules.{non_terminal_at, rule_width, start_at, weight_at};

use crate::RULE;
use forest::numbers::number_at;

// The node where a rule starts.
pub fn start_at(rules: &[u64], rule: usize) -> usize
    ensures { result ≡ start_at rules.now rule }
{
    number_at(rules, RULE, rule, 0) as usize
}

// The non-terminal of a rule.
pub fn non_terminal_at(rules: &[u64], rule: usize) -> u64
    ensures { result ≡ non_terminal_at rules.now rule }
{
    number_at(rules, RULE, rule, 1)
}

// The weight of a rule.
pub fn weight_at(rules: &[u64], rule: usize) -> u64
    ensures { result ≡ weight_at rules.now rule }
{
    number_at(rules, RULE, rule, 2)
}

// How many rules a table has.
pub fn rules_in(rules: &[u64]) -> usize
    ensures { result ≡ length rules.now / rule_width }
{
    rules.len() / RULE
}
