//! Whether a number is a value of a sort, and whether an operator takes operands of given sorts.
ghost use Rattle.std.specs.Prelude.{◌≡◌, ◌+◌, ◌≤◌, ◌&&◌, drop, length, nat_le, nat_lt};
ghost use Rattle.operators.specs.Operators.{operator_sort};
ghost use Rattle.operators.specs.Sorts.{all_are, sort_by, max_width, values_of, vector};
ghost use Rattle.operators.specs.code.Rules.{sort_rule};
ghost use Rattle.operators.specs.code.Sorting.{has_sort, least_operands};

use crate::operators::{OPERATORS, rule_of, takes};
use crate::rules::{MAX_WIDTH, Rule};
use crate::truth::operand;
use crate::vectors::ones;

// Whether a number is a value of a sort.
pub fn fits(sort: u64, number: u64) -> bool
    requires { sort ≤ max_width }
    ensures { result ≡ nat_lt number (values_of sort) }
{
    if sort == 0 {
        return number < 2;
    }
    number <= ones(sort)
}

// Whether each of the sorts from an index on is `sort`.
fn all_are(sort: u64, sorts: &[u64], from: usize) -> bool
    ensures { result ≡ all_are sort (drop from sorts.now) }
{
    sorts.iter().skip(from).all(|other| *other == sort)
}

// Whether `concat` takes operands of two sorts.
fn joins(first: u64, second: u64) -> bool
    ensures { result ≡ (vector first && vector second && nat_le (first + second) max_width) }
{
    if MAX_WIDTH < first {
        return false;
    }
    (0 < first) & (0 < second) & (second <= MAX_WIDTH - first)
}

// Whether a rule gives a sort over operands of these sorts, with `high` and `low` the numbers of an `extract`.
fn rule_gives(rule: Rule, high: u64, low: u64, sorts: &[u64]) -> bool
    requires { least_operands (sort_rule rule) ≤ length sorts.now }
    ensures { result ≡ has_sort (sort_by (sort_rule rule) high low sorts.now) }
{
    let first = operand(sorts, 0);
    let second = operand(sorts, 1);
    match rule {
        Rule::Logic => all_are(0, sorts, 0),
        Rule::Equality => all_are(first, sorts, 1),
        Rule::Choice => (first == 0) & all_are(second, sorts, 2),
        Rule::Joining => joins(first, second),
        Rule::Cutting => (low <= high) & (high < first),
        Rule::Width | Rule::Order => (0 < first) & all_are(first, sorts, 1),
    }
}

// Whether an operator, with `high` and `low` the numbers of an `extract`, takes operands of these sorts.
pub fn has_sort(operator: usize, high: u64, low: u64, sorts: &[u64]) -> bool
    ensures { result ≡ has_sort (operator_sort operator high low sorts.now) }
{
    if (operator < OPERATORS) & takes(operator, sorts.len()) {
        return rule_gives(rule_of(operator), high, low, sorts);
    }
    false
}
