//! The points and the run, of a script and a response whose tables are given.
ghost use Rattle.std.specs.Prelude.{◌≡◌, ◌≤◌, take};
ghost use Rattle.evaluation.specs.Running.{left_of};
ghost use Rattle.forest.specs.Limits.{most_variables};
ghost use Rattle.names.specs.code.Lookup.{Names};
ghost use Rattle.names.specs.code.Table.{sorts_from, variable_row};
ghost use Rattle.outcome.specs.Evaluated.{run_outcome};
ghost use Rattle.outcome.specs.code.Texts.{points_text};
ghost use Rattle.verdicts.specs.code.Evaluate.{Constrained, Evaluable, Evaluates, StatedRan};

use evaluation::costs::body_costs;
use evaluation::points::points_of;
use evaluation::running::run_points;
use evaluation::{Ran, Run, Stated};
use forest::limits;
use names::table::{VARIABLES, sort_in};
use outcome::Outcome;
use script::Progress;
use script::answers::{ACCEPTED, BUDGET, FALSE, POINTS};
use script::places::{bodies_of, stated_of};

// The sorts of the variables, `count` of them, at the front.
fn variable_sorts(names: &[u8], count: usize) -> [u64; limits::VARIABLES]
    requires names { Names names.now }
    requires count_le_most_variables { count ≤ most_variables }
    ensures { take count result ≡ sorts_from names.now variable_row count }
{
    let mut sorts = [0; limits::VARIABLES];
    for k in 0..count {
        sorts[k] = sort_in(names, VARIABLES + k);
    }
    sorts
}

// Runs the constraints and the assumptions over a list of numbers that is points, where the variables have these sorts.
fn run_stated(
    places: &[u64],
    nodes: &[u64],
    progress: Progress,
    sorts: &[u64],
    points: &[u64],
    budget: u64,
) -> Run
    requires { Constrained places.now nodes.now progress sorts.now points.now }
    ensures { StatedRan places.now nodes.now progress sorts.now points.now budget result }
{
    let bodies = bodies_of(places);
    let costs = body_costs(nodes, bodies, progress.defined, progress.functions);
    let stated = Stated {
        constraints: progress.constraints,
        assumptions: progress.assumptions,
    };
    let terms = stated_of(places);
    run_points(nodes, bodies, &costs, terms, stated, sorts, points, budget)
}

// An answer that speaks of the points.
fn points_answer(number: usize, place: usize, second: usize, units: u64) -> Outcome
    ensures { result ≡ record { number = number; text = points_text; place = place; second = second; units = units } }
{
    Outcome {
        number,
        text: outcome::POINTS,
        place,
        second,
        units,
    }
}

// The answer of a run.
fn run_outcome(run: Run, budget: u64) -> Outcome
    requires { left_of run.ran ≤ budget }
    ensures { result ≡ run_outcome budget run }
{
    let ran = run.ran;
    let units = budget - ran.left();
    match ran {
        Ran::Passed(_) => Outcome {
            number: ACCEPTED,
            text: outcome::NONE,
            place: 0,
            second: run.held,
            units,
        },
        Ran::False(point, constraint, _) => points_answer(FALSE, point, constraint, units),
        Ran::Ended(point, term, _) => points_answer(BUDGET, point, term, units),
    }
}

// Tests the points and runs the constraints and the assumptions over them within the budget.
pub fn evaluate(
    names: &[u8],
    places: &[u64],
    nodes: &[u64],
    progress: Progress,
    points: &[u64],
    budget: u64,
) -> Outcome
    requires { Evaluable names.now places.now nodes.now progress }
    ensures { Evaluates names.now places.now nodes.now progress points.now budget result }
{
    let variables = progress.variables;
    let sorts = variable_sorts(names, variables);
    let list = points_of(&sorts[..variables], points);
    match list {
        Err(place) => points_answer(POINTS, place, 0, 0),
        Ok(_) => run_outcome(
            run_stated(places, nodes, progress, &sorts[..variables], points, budget),
            budget,
        ),
    }
}
