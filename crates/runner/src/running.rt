//! Steps one after the other, and the arguments tested before them.
ghost use Rattle.std.specs.Prelude.{◌≡◌, ◌/◌, ◌<◌, [], length};
ghost use Rattle.operators.specs.Sorts.{AllFit};
ghost use Rattle.steps.specs.Stack.{as_values, ended_with, fits, run_from};
ghost use Rattle.runner.specs.code.Stack.{Ready};
ghost use Rattle.runner.specs.code.Running.{ArgumentStep, ConstantStep, OneStep, OperatorStep, Prepared, bad_argument, step_in};

use crate::stack::{Stack, apply_operator, empty, push};
use operators::operators::EXTRACT;
use operators::rules::MAX_WIDTH;
use operators::sorting;
use steps::list::{APPLY, PUSH_ARGUMENT, PUSH_CONSTANT, STEP};
use steps::{Refusal, Step};
use terms::Value;

// Whether a number is a sort, and another a value of it.
fn is_value(sort: u64, number: u64) -> bool
    ensures { result ≡ fits sort number }
{
    if MAX_WIDTH < sort {
        return false;
    }
    sorting::fits(sort, number)
}

// The first index at which a sort is none, or the argument no value of it.
pub fn first_bad(sorts: &[u64], arguments: &[u64]) -> Option<usize>
    ensures { result ≡ bad_argument sorts.now arguments.now }
{
    sorts
        .iter()
        .zip(arguments)
        .position(|(sort, argument)| !is_value(*sort, *argument))
}

// Step k of a list.
fn step_at(steps: &[u64], k: usize) -> Step
    requires { k < length steps.now / 4 }
    ensures { result ≡ step_in steps.now k }
{
    let start = STEP * k;
    Step {
        first: steps[start],
        second: steps[start + 1],
        third: steps[start + 2],
        fourth: steps[start + 3],
    }
}

// Pushes an argument.
fn push_argument(sorts: &[u64], arguments: &[u64], step: Step, stack: &mut Stack) -> Option<()>
    requires { Prepared sorts.now arguments.now stack.old.numbers stack.old.sorts stack.old.top }
    ensures { ArgumentStep sorts.now arguments.now step stack.old.numbers stack.old.sorts stack.old.top
        stack.new.numbers stack.new.sorts stack.new.top result }
{
    if (step.third != 0) | (step.fourth != 0) {
        return None;
    }
    if arguments.len() as u64 <= step.second {
        return None;
    }
    let place = step.second as usize;
    let value = Value {
        sort: sorts[place],
        number: arguments[place],
    };
    push(stack, value)
}

// Pushes a constant.
fn push_constant(step: Step, stack: &mut Stack) -> Option<()>
    requires { Ready stack.old.numbers stack.old.sorts stack.old.top }
    ensures { ConstantStep step stack.old.numbers stack.old.sorts stack.old.top
        stack.new.numbers stack.new.sorts stack.new.top result }
{
    if step.fourth != 0 {
        return None;
    }
    if !is_value(step.third, step.second) {
        return None;
    }
    let value = Value {
        sort: step.third,
        number: step.second,
    };
    push(stack, value)
}

// Applies an operator: `extract` by its two numbers, any other by how many operands it has.
fn apply_step(step: Step, stack: &mut Stack) -> Option<()>
    requires { Ready stack.old.numbers stack.old.sorts stack.old.top }
    ensures { OperatorStep step stack.old.numbers stack.old.sorts stack.old.top
        stack.new.numbers stack.new.sorts stack.new.top result }
{
    if step.second == EXTRACT as u64 {
        return apply_operator(step.second, step.third, step.fourth, 1, stack);
    }
    if step.fourth != 0 {
        return None;
    }
    apply_operator(step.second, 0, 0, step.third, stack)
}

// One step.
fn one_step(sorts: &[u64], arguments: &[u64], step: Step, stack: &mut Stack) -> Option<()>
    requires { Prepared sorts.now arguments.now stack.old.numbers stack.old.sorts stack.old.top }
    ensures { OneStep sorts.now arguments.now step stack.old.numbers stack.old.sorts stack.old.top
        stack.new.numbers stack.new.sorts stack.new.top result }
{
    match step.first {
        PUSH_ARGUMENT => push_argument(sorts, arguments, step, stack),
        PUSH_CONSTANT => push_constant(step, stack),
        APPLY => apply_step(step, stack),
        _ => None,
    }
}

// Runs the steps of a list on arguments of these sorts.
pub fn run_list(sorts: &[u64], arguments: &[u64], steps: &[u64]) -> Result<Value, Refusal>
    requires { AllFit sorts.now arguments.now }
    ensures { result ≡ ended_with (length steps.now / 4)
        (run_from (as_values sorts.now arguments.now) 0 steps.now []) }
{
    let whole = steps.len() / STEP;
    let mut stack = empty();
    for k in 0..whole {
        let step = step_at(steps, k);
        if one_step(sorts, arguments, step, &mut stack).is_none() {
            return Err(Refusal::BadStep(k));
        }
    }
    if (steps.len() % STEP == 0) & (stack.top == 1) {
        return Ok(Value {
            sort: stack.sorts[0],
            number: stack.numbers[0],
        });
    }
    Err(Refusal::BadStep(whole))
}
