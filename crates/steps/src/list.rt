//! The list of steps of terms in a node table: operands in order, the operator after them.
ghost use Rattle.std.specs.Prelude.{◌≡◌, ◌+◌, ◌*◌, ◌≤◌, length};
ghost use Rattle.std.proofs.lemmas.List.Edits.{sets};
ghost use Rattle.terms.specs.code.Nodes.{code_at, operands_at, value_at};
ghost use Rattle.steps.specs.code.List.{Listable, Listed, TermsStand, UsesTold, numbers_of, step_by, step_width};

use crate::Step;
use operators::operators::EXTRACT;
use terms::codes::{DEFINED, FUNCTION, LITERAL, NAME, head_of, high_in, kind_of, low_in};
use terms::{code_at, operands_at, size_at, value_at};

// How many numbers a step has.
pub const STEP: usize = 4;

// What a step does: it pushes an argument or a constant, or applies an operator.
pub const PUSH_ARGUMENT: u64 = 1;

pub const PUSH_CONSTANT: u64 = 2;

pub const APPLY: u64 = 3;

// The step of a node.
fn step_of(nodes: &[u64], node: usize) -> Step
    ensures { result ≡ step_by (code_at nodes.now node) (value_at nodes.now node) (operands_at nodes.now node) }
{
    let code = code_at(nodes, node);
    let value = value_at(nodes, node);
    let kind = kind_of(code);
    let head = head_of(code);
    if kind == LITERAL {
        return Step {
            first: PUSH_CONSTANT,
            second: value,
            third: head,
            fourth: 0,
        };
    }
    if kind == NAME {
        return Step {
            first: PUSH_ARGUMENT,
            second: value,
            third: 0,
            fourth: 0,
        };
    }
    if head == EXTRACT as u64 {
        return Step {
            first: APPLY,
            second: head,
            third: high_in(value),
            fourth: low_in(value),
        };
    }
    Step {
        first: APPLY,
        second: head,
        third: operands_at(nodes, node),
        fourth: 0,
    }
}

// Writes a step at a place, which is counted in steps.
fn put_step(area: &mut [u64], place: usize, step: Step)
    requires { step_width * (place + 1) ≤ length area.old }
    ensures { area.new ≡ sets area.old (step_width * place) (numbers_of step) }
{
    let start = STEP * place;
    area[start] = step.first;
    area[start + 1] = step.second;
    area[start + 2] = step.third;
    area[start + 3] = step.fourth;
}

// Writes the steps of the terms from node `start` up to node `stop` from step `at` on; returns the step past them.
pub fn write_steps(nodes: &[u64], start: usize, stop: usize, area: &mut [u64], at: usize) -> usize
    requires { Listable nodes.now area.old start stop at }
    ensures { Listed nodes.now area.old area.new start stop at result }
{
    let mut node = start;
    let mut place = at;
    while node < stop {
        let past = node + size_at(nodes, node);
        place = write_steps(nodes, node + 1, past, area, place);
        put_step(area, place, step_of(nodes, node));
        place += 1;
        node = past;
    }
    place
}

// Whether the terms from node `start` up to node `stop` apply a function of the script.
pub fn uses_defined(nodes: &[u64], start: usize, stop: usize) -> bool
    requires { TermsStand nodes.now start stop }
    ensures { UsesTold nodes.now start stop result }
{
    for node in start..stop {
        let kind = kind_of(code_at(nodes, node));
        if (kind == DEFINED) | (kind == FUNCTION) {
            return true;
        }
    }
    false
}
