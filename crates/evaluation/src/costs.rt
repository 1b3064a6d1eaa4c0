//! Costs, held as 64-bit numbers that are exact against every budget.
ghost use Rattle.std.specs.Prelude.{◌≡◌, ◌+◌, ◌-◌, ◌^◌, min, get_or};
ghost use Rattle.evaluation.specs.code.Costs.{Cost, Costing, FilledIn, Filling, Prices, Pricing};
ghost use Rattle.evaluation.specs.code.Tables.{body_place};

use forest::limits;
use forest::numbers::entry_at;
use terms::codes::{DEFINED, FUNCTION, kind_of};
use terms::{code_at, size_at, value_at};

// How many bodies there may be: those of `define-fun`s, and behind them those of synthesized functions. Also a place that no body has.
pub const BODIES: usize = limits::DEFINED + limits::FUNCTIONS;

// The place of the body of the function that a label applies; `BODIES` for a label that applies none.
pub(crate) fn body_place(code: u64, value: u64) -> usize
    ensures { result ≡ body_place code value }
{
    let kind = kind_of(code);
    if (kind == DEFINED) & (value < limits::DEFINED as u64) {
        return value as usize;
    }
    if (kind == FUNCTION) & (value < limits::FUNCTIONS as u64) {
        return limits::DEFINED + value as usize;
    }
    BODIES
}

// What is held of the cost of the term at a node: its nodes, and the bodies that they apply.
pub fn cost_at(nodes: &[u64], bodies: &[u64], costs: &[u64], node: usize) -> u64
    requires { Costing nodes.now bodies.now costs.now node }
    ensures { Cost nodes.now bodies.now costs.now node result }
{
    let size = size_at(nodes, node);
    let mut sum = (size - 1) as u64;
    for j in node..node + size {
        let place = body_place(code_at(nodes, j), value_at(nodes, j));
        if place < BODIES {
            sum = sum.saturating_add(entry_at(costs, place)).saturating_add(1);
        }
    }
    sum
}

// Fills in what is held of the costs of the bodies from place `base` on, `count` of them.
fn fill_from(nodes: &[u64], bodies: &[u64], costs: &mut [u64; BODIES], base: usize, count: usize)
    requires { Filling nodes.now bodies.now costs.old base count }
    ensures { FilledIn nodes.now bodies.now costs.old costs.new base count }
{
    for k in 0..count {
        let cost = cost_at(nodes, bodies, costs, entry_at(bodies, base + k) as usize);
        costs[base + k] = cost;
    }
}

// What is held of the costs of all bodies: of the `define-fun`s in their order, then of the synthesized functions.
pub fn body_costs(nodes: &[u64], bodies: &[u64], defined: usize, functions: usize) -> [u64; BODIES]
    requires { Pricing nodes.now bodies.now defined functions }
    ensures { Prices nodes.now bodies.now defined functions result }
{
    let mut costs = [0u64; BODIES];
    fill_from(nodes, bodies, &mut costs, 0, defined);
    fill_from(nodes, bodies, &mut costs, limits::DEFINED, functions);
    costs
}
