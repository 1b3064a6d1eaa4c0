//! The runner of lists of steps for C.
#![tactic(auto)]

ghost use Rattle.runner.specs.Running.{RanForC};

// `run_steps` for C: returns the answer's number and puts its place, and the value and its sort, where the caller lends room for them.
#[unsafe(no_mangle)]
pub extern "C" fn sverdhyll_run(
    sorts: &[u64],
    arguments: &[u64],
    steps: &[u64],
    place: &mut u64,
    value: &mut u64,
    sort: &mut u64,
) -> u8
    ensures { RanForC sorts.now arguments.now steps.now result place.new value.new sort.new }
{
    runner::sverdhyll_run(sorts, arguments, steps, place, value, sort)
}
