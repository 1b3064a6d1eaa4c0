//! The evaluator: the term evaluator calls an operand evaluator, which calls it back, and the cost left falls.
ghost use Rattle.std.specs.Prelude.{◌≡◌, cond, eqb};
ghost use Rattle.evaluation.specs.code.Evaluator.{Evaluable, Evaluated, OperandsEvaluable, OperandsEvaluated, OperatorGave, OperatorReady};

use crate::costs::body_place;
use forest::numbers::entry_at;
use operators::operators::{apply, result_sort};
use terms::codes::{LITERAL, NAME, OPERATOR, head_of, high_in, kind_of, low_in};
use terms::{Value, code_at, operands_at, size_at, value_at};

// The sorts of the first two operands; what is not there is 0.
#[derive(Clone, Copy)]
struct Sorts {
    one: u64,
    two: u64,
}

// The sorts, with that of the operand at an index where it is one of the first two.
fn with_sort(sorts: Sorts, index: usize, sort: u64) -> Sorts
    ensures { (result.one ≡ cond (eqb index 0) sort sorts.one) × (result.two ≡ cond (eqb index 1) sort sorts.two) }
{
    match index {
        0 => Sorts { one: sort, ..sorts },
        1 => Sorts { two: sort, ..sorts },
        _ => sorts,
    }
}

// The value that an operator, whose label has the numbers of an `extract` as its value, gives the operands whose values the stack has from `top` up to
// `past`, of which the first two have these sorts.
fn operator_at(
    operator: u64,
    bounds: u64,
    sorts: Sorts,
    stack: &[u64],
    top: usize,
    past: usize,
) -> Value
    requires { OperatorReady operator bounds sorts.one sorts.two stack.now top past }
    ensures { OperatorGave operator bounds sorts.one sorts.two stack.now top past result }
{
    let number = operator as usize;
    let high = high_in(bounds);
    let low = low_in(bounds);
    let sort = result_sort(number, high, low, sorts.one, sorts.two);
    Value {
        sort,
        number: apply(number, high, low, sorts.one, sorts.two, &stack[top..past]),
    }
}

// The value of the term at a node, whose cost is at most `left`. The stack has the values of the names in its scope from `base` on; what it has from `top` on
// is free to change.
#[cycle(eval_operands_eval_term)]
pub fn eval_term(
    nodes: &[u64],
    bodies: &[u64],
    stack: &mut [u64],
    base: usize,
    top: usize,
    node: usize,
    left: u64,
) -> Value
    requires { Evaluable nodes.now bodies.now stack.old base top node left }
    ensures { Evaluated nodes.now bodies.now stack.old stack.new base top node left result }
{
    let code = code_at(nodes, node);
    let value = value_at(nodes, node);
    let kind = kind_of(code);
    if kind == LITERAL {
        return Value {
            sort: head_of(code),
            number: value,
        };
    }
    if kind == NAME {
        return Value {
            sort: head_of(code),
            number: entry_at(stack, base + value as usize),
        };
    }
    let stop = node + size_at(nodes, node);
    let sorts = eval_operands(nodes, bodies, stack, base, top, node + 1, stop, left - 1);
    let past = top + operands_at(nodes, node) as usize;
    if kind == OPERATOR {
        return operator_at(head_of(code), value, sorts, stack, top, past);
    }
    let body = entry_at(bodies, body_place(code, value)) as usize;
    eval_term(nodes, bodies, stack, top, past, body, left - 1)
}

// Puts the values of the operands from node `start` up to node `stop` on the stack from `top` on.
#[cycle(eval_operands_eval_term)]
fn eval_operands(
    nodes: &[u64],
    bodies: &[u64],
    stack: &mut [u64],
    base: usize,
    top: usize,
    start: usize,
    stop: usize,
    left: u64,
) -> Sorts
    requires { OperandsEvaluable nodes.now bodies.now stack.old base top start stop left }
    ensures { OperandsEvaluated nodes.now bodies.now stack.old stack.new base top start stop left
        result.one result.two }
{
    let mut sorts = Sorts { one: 0, two: 0 };
    let mut j = start;
    let mut k: usize = 0;
    while j < stop {
        let place = top + k;
        let value = eval_term(nodes, bodies, stack, base, place, j, left);
        stack[place] = value.number;
        sorts = with_sort(sorts, k, value.sort);
        j += size_at(nodes, j);
        k += 1;
    }
    sorts
}
