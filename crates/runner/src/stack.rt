//! The stack: the numbers and the sorts of its values, each in a table of 256, the oldest first.
ghost use Rattle.runner.specs.code.Stack.{Appliable, Applying, Given, IsEmpty, Pushable, Pushing, Ready};

use forest::numbers::entry_at;
use operators::operators::{apply, result_sort};
use operators::sorting::has_sort;
use terms::Value;

// How many values the stack holds.
const VALUES: usize = 256;

// The tables, and how many values they have.
#[derive(Drop)]
pub struct Stack {
    pub numbers: [u64; VALUES],
    pub sorts: [u64; VALUES],
    pub top: usize,
}

// The stack without values.
pub fn empty() -> Stack
    ensures { IsEmpty result.numbers result.sorts result.top }
{
    Stack {
        numbers: [0; VALUES],
        sorts: [0; VALUES],
        top: 0,
    }
}

// Puts a value on the stack, where there is room.
pub fn push(stack: &mut Stack, value: Value) -> Option<()>
    requires { Pushable stack.old.numbers stack.old.sorts stack.old.top value }
    ensures { Pushing stack.old.numbers stack.old.sorts stack.old.top
        stack.new.numbers stack.new.sorts stack.new.top value result }
{
    let top = stack.top;
    if top == VALUES {
        return None;
    }
    stack.numbers[top] = value.number;
    stack.sorts[top] = value.sort;
    stack.top = top + 1;
    Some(())
}

// The value that an operator, with `high` and `low` the numbers of an `extract`, gives operands that it takes.
fn value_of(operator: usize, high: u64, low: u64, values: &[u64], sorts: &[u64]) -> Value
    requires { Appliable operator high low values.now sorts.now }
    ensures { Given operator high low values.now sorts.now result }
{
    let first = entry_at(sorts, 0);
    let second = entry_at(sorts, 1);
    Value {
        sort: result_sort(operator, high, low, first, second),
        number: apply(operator, high, low, first, second, values),
    }
}

// Puts the value that an operator gives the `count` newest values in their place, if it takes them.
pub fn apply_operator(
    operator: u64,
    high: u64,
    low: u64,
    count: u64,
    stack: &mut Stack,
) -> Option<()>
    requires { Ready stack.old.numbers stack.old.sorts stack.old.top }
    ensures { Applying operator high low count stack.old.numbers stack.old.sorts stack.old.top
        stack.new.numbers stack.new.sorts stack.new.top result }
{
    let top = stack.top;
    if (top as u64) < count {
        return None;
    }
    let number = operator as usize;
    let base = top - count as usize;
    let numbers: &[u64] = &stack.numbers;
    let sorts: &[u64] = &stack.sorts;
    if !has_sort(number, high, low, &sorts[base..top]) {
        return None;
    }
    let value = value_of(number, high, low, &numbers[base..top], &sorts[base..top]);
    stack.numbers[base] = value.number;
    stack.sorts[base] = value.sort;
    stack.top = base + 1;
    Some(())
}
