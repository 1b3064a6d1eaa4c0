//! The run over points and terms in order, within a budget.
ghost use Rattle.std.specs.Prelude.{◌≡◌, Bool, ◌+◌, ◌≤◌, length, replicate};
ghost use Rattle.evaluation.specs.Running.{all_passed, left_of, skipping};
ghost use Rattle.evaluation.specs.code.Running.{Fronted, PointRan, PointRunnable, PointsRan, PointsRunnable, Prices, Runnable, StatedCosting};
ghost use Rattle.evaluation.specs.code.Running.{StatedPriced, TermsCosting, TermsRan, stack_size, stated_terms};

use crate::costs::{BODIES, cost_at};
use crate::evaluator::eval_term;
use crate::points::point_count;
use crate::{Ran, Run, Stated, Turn, Visit};
use forest::limits;

// How many values the stack of a run holds: those of the variables, and of the nodes of a constraint and of each body that it may be within.
const STACK: usize = limits::VARIABLES + limits::NODES * (BODIES + 1);

// How many terms a table of them has room for: constraints in front, and assumptions from their first number on.
const STATED: usize = limits::FIRST_ASSUMPTION + limits::ASSUMPTIONS;

impl Ran {
    // What is left of the budget.
    pub fn left(self) -> u64
        ensures { result ≡ left_of self }
    {
        match self {
            Ran::Passed(left) | Ran::False(_, _, left) | Ran::Ended(_, _, left) => left,
        }
    }

    // Whether all terms were true.
    fn all_passed(self) -> bool
        ensures { result ≡ all_passed self }
    {
        matches!(self, Ran::Passed(_))
    }

    // What a false assumption leaves: the point is passed over.
    fn skipping(self) -> Ran
        ensures { result ≡ skipping self }
    {
        match self {
            Ran::False(_, _, left) => Ran::Passed(left),
            other => other,
        }
    }
}

// Puts what is held of the costs of terms, from number `first` on, `count` of them, which begin at the nodes of `places`.
fn put_costs(
    nodes: &[u64],
    bodies: &[u64],
    costs: &[u64],
    places: &[u64],
    prices: &mut [u64],
    first: usize,
    count: usize,
)
    requires terms_costing { TermsCosting nodes.now bodies.now costs.now places.now first count }
    requires prices_len { length prices.old ≡ stated_terms }
    ensures { Prices nodes.now bodies.now costs.now places.now
        prices.old prices.new first (first + count) }
{
    for k in first..first + count {
        let cost = cost_at(nodes, bodies, costs, places[k] as usize);
        prices[k] = cost;
    }
}

// A stack of zeros.
fn blank_stack() -> [u64; STACK]
    ensures { result ≡ replicate stack_size 0 }
{
    [0u64; STACK]
}

// Puts the numbers of a point at the front of the stack.
fn put_point(stack: &mut [u64], numbers: &[u64])
    requires { length numbers.now ≤ length stack.old }
    ensures { Fronted stack.old stack.new numbers.now }
{
    stack[..numbers.len()].copy_from_slice(numbers);
}

// Runs the terms of a turn, which begin at the nodes of `places`, one after the other, at a point, whose values are the first `width` of the stack; `prices` has
// what is held of their costs.
fn run_terms(
    nodes: &[u64],
    bodies: &[u64],
    prices: &[u64],
    places: &[u64],
    stack: &mut [u64],
    width: usize,
    turn: Turn,
    budget: u64,
) -> Ran
    requires { Runnable nodes.now bodies.now prices.now places.now stack.old width turn.first turn.count }
    ensures { TermsRan nodes.now bodies.now prices.now
        places.now stack.old stack.new width turn budget result }
{
    let end = turn.first + turn.count;
    let mut left = budget;
    for k in turn.first..end {
        let cost = prices[k];
        if left <= cost {
            return Ran::Ended(turn.point, k, left);
        }
        let value = eval_term(nodes, bodies, stack, 0, width, places[k] as usize, left);
        left = left - cost - 1;
        if value.number != 1 {
            return Ran::False(turn.point, k, left);
        }
    }
    Ran::Passed(left)
}

// Runs the assumptions at a point, whose values are the first `width` of the stack, and the constraints where all of them are true.
fn run_point(
    nodes: &[u64],
    bodies: &[u64],
    prices: &[u64],
    places: &[u64],
    stack: &mut [u64],
    width: usize,
    visit: Visit,
    budget: u64,
) -> Run
    requires { PointRunnable nodes.now bodies.now prices.now places.now stack.old width visit.stated }
    ensures { PointRan nodes.now bodies.now prices.now
        places.now stack.old stack.new width visit budget result }
{
    let assumptions = Turn {
        point: visit.point,
        first: limits::FIRST_ASSUMPTION,
        count: visit.stated.assumptions,
    };
    let assumed = run_terms(
        nodes,
        bodies,
        prices,
        places,
        stack,
        width,
        assumptions,
        budget,
    );
    if !assumed.all_passed() {
        return Run {
            held: 0,
            ran: assumed.skipping(),
        };
    }
    let constraints = Turn {
        point: visit.point,
        first: 0,
        count: visit.stated.constraints,
    };
    let left = assumed.left();
    Run {
        held: 1,
        ran: run_terms(
            nodes,
            bodies,
            prices,
            places,
            stack,
            width,
            constraints,
            left,
        ),
    }
}

// What is held of the costs of constraints and assumptions, which begin at the nodes of `places`, each at its number.
fn term_costs(
    nodes: &[u64],
    bodies: &[u64],
    costs: &[u64],
    places: &[u64],
    stated: Stated,
) -> [u64; STATED]
    requires { StatedCosting nodes.now bodies.now costs.now places.now stated }
    ensures { StatedPriced nodes.now bodies.now costs.now places.now stated result }
{
    let mut prices = [0u64; STATED];
    put_costs(
        nodes,
        bodies,
        costs,
        places,
        &mut prices,
        0,
        stated.constraints,
    );
    put_costs(
        nodes,
        bodies,
        costs,
        places,
        &mut prices,
        limits::FIRST_ASSUMPTION,
        stated.assumptions,
    );
    prices
}

// Runs the constraints and the assumptions at each point of a list that is whole points, where the variables have these sorts.
pub fn run_points(
    nodes: &[u64],
    bodies: &[u64],
    costs: &[u64],
    places: &[u64],
    stated: Stated,
    sorts: &[u64],
    numbers: &[u64],
    budget: u64,
) -> Run
    requires { PointsRunnable nodes.now bodies.now costs.now places.now stated sorts.now numbers.now }
    ensures { PointsRan nodes.now bodies.now costs.now
        places.now stated sorts.now numbers.now budget result }
{
    let width = sorts.len();
    let count = point_count(width, numbers.len());
    if count == 0 {
        return Run {
            held: 0,
            ran: Ran::Passed(budget),
        };
    }
    let prices = term_costs(nodes, bodies, costs, places, stated);
    let mut stack = blank_stack();
    let mut run = Run {
        held: 0,
        ran: Ran::Passed(budget),
    };
    for point in 0..count {
        let start = point * width;
        put_point(&mut stack, &numbers[start..start + width]);
        let left = run.ran.left();
        let visit = Visit { point, stated };
        let here = run_point(
            nodes, bodies, &prices, places, &mut stack, width, visit, left,
        );
        let held = run.held + here.held;
        let ran = here.ran;
        run = Run { held, ran };
        if !ran.all_passed() {
            return run;
        }
    }
    run
}
