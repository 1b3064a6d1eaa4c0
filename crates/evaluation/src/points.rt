//! Points: a list of numbers, one for each variable, point after point.
ghost use Rattle.std.specs.Prelude.{◌≡◌};
ghost use Rattle.evaluation.specs.code.Points.{FirstOutside, SortsSmall, VariableSorts};
ghost use Rattle.evaluation.specs.Points.{cut_short, point_count, points_of};

use operators::sorting::fits;

// How many points a list of `size` numbers is, by how many variables there are.
pub(crate) fn point_count(variables: usize, size: usize) -> usize
    ensures { result ≡ point_count variables size }
{
    size.checked_div(variables).unwrap_or(1)
}

// Whether a list of `size` numbers is no whole number of points.
fn cut_short(variables: usize, size: usize) -> bool
    ensures { result ≡ cut_short variables size }
{
    !size.is_multiple_of(variables)
}

// The index of the first number that is no value of its variable's sort.
fn first_outside(sorts: &[u64], numbers: &[u64]) -> Option<usize>
    requires { VariableSorts sorts.now numbers.now }
    ensures { FirstOutside sorts.now numbers.now result }
{
    for (i, number) in numbers.iter().enumerate() {
        if !fits(sorts[i % sorts.len()], *number) {
            return Some(i);
        }
    }
    None
}

// How many points a list of numbers is, where the variables have these sorts; else the place of its fault.
pub fn points_of(sorts: &[u64], numbers: &[u64]) -> Result<usize, usize>
    requires { SortsSmall sorts.now }
    ensures { result ≡ points_of sorts.now numbers.now }
{
    if cut_short(sorts.len(), numbers.len()) {
        return Err(numbers.len());
    }
    match first_outside(sorts, numbers) {
        Some(place) => Err(place),
        None => Ok(point_count(sorts.len(), numbers.len())),
    }
}
