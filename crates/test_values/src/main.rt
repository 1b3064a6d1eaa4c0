//! Runs a small case: its costs, a value, and the run over its points with different budgets.
#![tactic(auto)]

ghost use Rattle.std.specs.Prelude.{◌≡◌, ◌≤◌, get_or, replicate, set};
ghost use Rattle.terms.specs.Costs.{cost_of};
ghost use Rattle.terms.specs.code.Nodes.{node_table};
ghost use Rattle.evaluation.specs.code.Budget.{Priced, held};
ghost use Rattle.evaluation.specs.Running.{left_of, run_points};
ghost use Rattle.test_values.specs.Case.{all, answer_of, assumed, constraints, defs, funs, numbers, places, room, shifted, sorts};

use evaluation::costs::{body_costs, cost_at};
use evaluation::evaluator::eval_term;
use evaluation::running::run_points;
use evaluation::{Ran, Run, Stated};
use forest::limits;

// How many values that stack has room for.
const STACK: usize = 1 + 6 + 2 * limits::NODES;

// How many terms a table of places has room for.
const STATED: usize = limits::FIRST_ASSUMPTION + limits::ASSUMPTIONS;

// The node table of the case, four numbers a node: the bodies of d0 and f0, and the two constraints.
const NODES: [u64; 64] = [
    210, 0, 2, 3, 129, 0, 0, 1, 129, 0, 0, 1, 3, 0, 1, 3, 3, 0, 1, 2, 129, 0, 0, 1, 82, 0, 2, 6, 4,
    0, 1, 2, 129, 0, 0, 1, 290, 0, 2, 3, 129, 0, 0, 1, 128, 2, 0, 1, 322, 0, 2, 4, 4, 0, 1, 2, 129,
    0, 0, 1, 128, 128, 0, 1,
];

// That table.
fn nodes() -> [u64; 64]
    ensures { result ≡ node_table all }
{
    NODES
}

// The nodes at which the bodies begin: d0's is node 0, f0's is node 3.
fn bodies() -> [u64; 40]
    ensures { result ≡ set (replicate 40 0) 32 3 }
{
    let mut bodies = [0u64; 40];
    bodies[32] = 3;
    bodies
}

// The nodes at which the terms begin, each at its number: the first constraint's is node 6, the second's, which is the assumption too, is node 12.
fn places() -> [u64; STATED]
    ensures { result ≡ places }
{
    let mut places = [12u64; STATED];
    places[0] = 6;
    places
}

// What is held of the costs of the bodies.
fn prices() -> [u64; 40]
    ensures { Priced result defs funs }
{
    let nodes = nodes();
    let bodies = bodies();
    body_costs(&nodes, &bodies, 1, 1)
}

// What is held of the cost of the first constraint.
fn cost() -> u64
    ensures { result ≡ held (cost_of defs funs shifted) }
{
    let nodes = nodes();
    let bodies = bodies();
    let costs = prices();
    cost_at(&nodes, &bodies, &costs, 6)
}

// A stack for the values of x and of the six nodes of the first constraint, and of the nodes of the two bodies, on which x is 33.
fn stack() -> [u64; STACK]
    ensures { result ≡ replicate room 33 }
{
    [33u64; STACK]
}

// The number of the first constraint's value where x is 33.
fn value() -> u64
    ensures { result ≡ 1 }
{
    let nodes = nodes();
    let bodies = bodies();
    let mut stack = stack();
    let v = eval_term(&nodes, &bodies, &mut stack, 0, 1, 6, 15);
    v.number
}

// What the run over the two points finds, without the assumption or with it.
fn run(assumptions: usize, budget: u64) -> Run
    requires { assumptions ≤ 1 }
    ensures { result ≡ run_points defs funs sorts numbers (assumed assumptions) constraints 2 0 0 budget }
{
    let nodes = nodes();
    let bodies = bodies();
    let costs = prices();
    let places = places();
    let stated = Stated {
        constraints: 2,
        assumptions,
    };
    run_points(
        &nodes,
        &bodies,
        &costs,
        &places,
        stated,
        &[8u64; 1],
        &[3u64, 33],
        budget,
    )
}

// The number of the answer that a run leads to: "0 accepted", "14 constraint false", "15 budget ended".
fn answer(run: Run) -> u64
    ensures { result ≡ answer_of run.ran }
{
    match run.ran {
        Ran::Passed(_) => 0,
        Ran::False(_, _, _) => 14,
        Ran::Ended(_, _, _) => 15,
    }
}

// What a run leaves of the budget.
fn left(run: Run) -> u64
    ensures { result ≡ left_of run.ran }
{
    run.ran.left()
}

// At how many points the assumption held.
fn held(run: Run) -> usize
    ensures { result ≡ run.held }
{
    run.held
}

fn main() {
    check::expect(cost() == 14);
    check::expect(value() == 1);
    check::expect(answer(run(0, 100)) == 14);
    check::expect(left(run(0, 100)) == 44);
    check::expect(answer(run(0, 55)) == 15);
    check::expect(left(run(0, 55)) == 12);
    check::expect(answer(run(1, 100)) == 0);
    check::expect(left(run(1, 100)) == 46);
    check::expect(held(run(1, 100)) == 1);
    check::expect(answer(run(1, 53)) == 15);
    check::expect(left(run(1, 53)) == 12);
}
