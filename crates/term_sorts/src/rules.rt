//! The sort of an operator over operands of given sorts, by its rule.
ghost use Rattle.std.specs.Prelude.{◌≡◌, ◌+◌, ◌-◌, ◌^◌, ◌<◌, ◌&&◌, cond, leb, ltb};
ghost use Rattle.operators.specs.Sorts.{max_width, vector, sort_where};
ghost use Rattle.term_sorts.specs.code.Forms.{sort_number};
ghost use Rattle.term_sorts.specs.code.Rules.{OperatorGives, RuleGives, Ruled};
ghost use Rattle.term_sorts.specs.code.Operands.{SortedTrees};

use crate::operands::{common_sort, sort_at};
use operators::operators::{OPERATORS, rule_of, takes};
use operators::rules::{MAX_WIDTH, Rule};
use terms::codes::{high_in, low_in};
use terms::size_at;

// `Bool`, one more than its sort.
const BOOL: u64 = 1;

// The number where a test passes, 0 where it fails.
pub fn number_when(test: bool, number: u64) -> u64
    ensures { result ≡ cond test number 0 }
{
    if test { number } else { 0 }
}

// The sort of `concat` over operands of the sorts `first` and `second`.
fn joined_sort(first: u64, second: u64) -> u64
    ensures { result ≡ sort_number (sort_where (vector first && vector second && leb (first + second) max_width) (first + second)) }
{
    if MAX_WIDTH < first {
        return 0;
    }
    if MAX_WIDTH - first < second {
        return 0;
    }
    number_when((0 < first) & (0 < second), first + second + 1)
}

// The sort of `(_ extract high low)` over an operand of the sort `sort`.
fn cut_sort(sort: u64, high: u64, low: u64) -> u64
    requires { sort + 1 < 2 ^ 64 }
    ensures { result ≡ sort_number (sort_where (leb low high && ltb high sort) (high - low + 1)) }
{
    if high < low {
        return 0;
    }
    if sort <= high {
        return 0;
    }
    high - low + 2
}

// The sort that a rule gives over the trees from node `place` on, `count` of them; `value` tells the numbers of `(_ extract i j)`.
fn rule_sort(
    forms: &[u64],
    column: &[u8],
    place: usize,
    count: usize,
    rule: Rule,
    value: u64,
) -> u64
    requires { Ruled forms.now column.now place count rule }
    ensures { RuleGives forms.now column.now place count rule value result }
{
    let first = sort_at(column, place) - 1;
    let second = place + size_at(forms, place);
    match rule {
        Rule::Cutting => cut_sort(first, high_in(value), low_in(value)),
        Rule::Joining => joined_sort(first, sort_at(column, second) - 1),
        Rule::Choice => number_when(first == 0, common_sort(forms, column, second, count - 1)),
        Rule::Logic => number_when(common_sort(forms, column, place, count) == BOOL, BOOL),
        Rule::Equality => number_when(BOOL <= common_sort(forms, column, place, count), BOOL),
        Rule::Order => number_when(BOOL < common_sort(forms, column, place, count), BOOL),
        Rule::Width => {
            let common = common_sort(forms, column, place, count);
            number_when(BOOL < common, common)
        }
    }
}

// The sort of an operator over the trees from node `place` on, `count` of them; `value` tells the numbers of `(_ extract i j)`.
pub fn operator_sort(
    forms: &[u64],
    column: &[u8],
    place: usize,
    count: usize,
    operator: usize,
    value: u64,
) -> u64
    requires { SortedTrees forms.now column.now place count }
    ensures { OperatorGives forms.now column.now place count operator value result }
{
    if (operator < OPERATORS) & takes(operator, count) {
        return rule_sort(forms, column, place, count, rule_of(operator), value);
    }
    0
}
