//! The runner of lists of steps: a controller with a stack of 256 values. What it takes and gives for C stands here.
#![tactic(auto)]

mod running;
mod stack;

ghost use Rattle.std.specs.Prelude.{◌≡◌};
ghost use Rattle.steps.specs.Stack.{number_of, place_of, ran};
ghost use Rattle.runner.specs.Running.{RanForC};

use running::{first_bad, run_list};
use steps::Refusal;
use terms::Value;

// Runs a list of steps on arguments of the sorts given along.
pub fn run_steps(sorts: &[u64], arguments: &[u64], steps: &[u64]) -> Result<Value, Refusal>
    ensures { result ≡ ran sorts.now arguments.now steps.now }
{
    let count = arguments.len();
    if sorts.len() != count {
        return Err(Refusal::BadArgument(count));
    }
    if let Some(bad) = first_bad(sorts, arguments) {
        return Err(Refusal::BadArgument(bad));
    }
    run_list(sorts, arguments, steps)
}

// The number and the place of the answer that a refusal is.
fn refused(refusal: Refusal) -> (u8, usize)
    ensures number { result.0 ≡ number_of (Err refusal) }
    ensures place { result.1 ≡ place_of (Err refusal) }
{
    match refusal {
        Refusal::BadStep(place) => (19, place),
        Refusal::BadArgument(place) => (20, place),
    }
}

// `run_steps` for C: returns the answer's number and puts its place, and the value and its sort, where the caller lends room for them.
pub fn sverdhyll_run(
    sorts: &[u64],
    arguments: &[u64],
    steps: &[u64],
    place: &mut u64,
    value: &mut u64,
    sort: &mut u64,
) -> u8
    ensures { RanForC sorts.now arguments.now steps.now result place.new value.new sort.new }
{
    match run_steps(sorts, arguments, steps) {
        Ok(found) => {
            *place = 0;
            *value = found.number;
            *sort = found.sort;
            0
        }
        Err(refusal) => {
            let (number, at) = refused(refusal);
            *place = at as u64;
            *value = 0;
            *sort = 0;
            number
        }
    }
}
