//! The operators whose operands or values are Bools: 0 is false, 1 is true.
ghost use Rattle.std.specs.Prelude.{◌≡◌, ℕ, drop, nat_eq, slice_index};
ghost use Rattle.operators.specs.Values.{and_value, bvule_value, bvult_value, chained, differ, group_left, group_right, implies_value, ite_value};
ghost use Rattle.operators.specs.Values.{not_value, or_value, pairwise, truth, with_each, xor_value};

// The numbers of `and`, `or` and `xor`.
pub(crate) const AND: usize = 1;

pub(crate) const OR: usize = 2;

pub(crate) const XOR: usize = 3;

// `not`
pub(crate) fn not_of(value: u64) -> u64
    ensures { result ≡ not_value value }
{
    u64::from(value != 1)
}

// `and` of two operands.
pub(crate) fn and_of(left: u64, right: u64) -> u64
    ensures { result ≡ and_value left right }
{
    u64::from((left == 1) & (right == 1))
}

// `or` of two operands.
pub(crate) fn or_of(left: u64, right: u64) -> u64
    ensures { result ≡ or_value left right }
{
    u64::from((left == 1) | (right == 1))
}

// `xor` of two operands.
pub(crate) fn xor_of(left: u64, right: u64) -> u64
    ensures { result ≡ xor_value left right }
{
    u64::from((left == 1) != (right == 1))
}

// An operand's value; 0 where it is not there.
pub(crate) fn operand(values: &[u64], index: usize) -> u64
    ensures { result ≡ slice_index values.now index }
{
    values.get(index).copied().unwrap_or(0)
}

// An operator of two operands over any number of them: from the left.
pub(crate) fn group_left<F: Fn(u64, u64) -> u64>(pair: F, values: &[u64]) -> u64
    requires { F.IsAlwaysCallable pair }
    ensures { (f : ℕ → ℕ → ℕ) → ((a b r : ℕ) → F.post pair a b r → r ≡ f a b) → result ≡ group_left f (slice_index values.now 0) (drop 1 values.now) }
{
    values.iter().copied().reduce(pair).unwrap_or(0)
}

// `=>` of two operands.
fn implies(left: u64, right: u64) -> u64
    ensures { result ≡ implies_value left right }
{
    u64::from((left != 1) | (right == 1))
}

// `=>`: from the right, so from the last operand down.
pub(crate) fn group_right(values: &[u64]) -> u64
    ensures { result ≡ group_right implies_value (slice_index values.now 0) (drop 1 values.now) }
{
    values
        .iter()
        .copied()
        .rev()
        .reduce(|value, before| implies(before, value))
        .unwrap_or(0)
}

// `=`: each operand is equal to the next.
pub(crate) fn all_alike(values: &[u64]) -> u64
    ensures { result ≡ truth (chained nat_eq (slice_index values.now 0) (drop 1 values.now)) }
{
    u64::from(
        values
            .iter()
            .zip(values.iter().skip(1))
            .all(|(value, next)| *value == *next),
    )
}

// Whether a value is none of those from an index on.
fn differs_from(value: u64, values: &[u64], from: usize) -> bool
    ensures { result ≡ with_each differ value (drop from values.now) }
{
    values.iter().skip(from).all(|other| value != *other)
}

// `distinct`: each operand differs from each behind it.
pub(crate) fn all_differ(values: &[u64]) -> u64
    ensures { result ≡ truth (pairwise differ values.now) }
{
    u64::from(
        values
            .iter()
            .enumerate()
            .all(|(k, value)| differs_from(*value, values, k + 1)),
    )
}

// `bvult`
pub(crate) fn bvult(left: u64, right: u64) -> u64
    ensures { result ≡ bvult_value left right }
{
    u64::from(left < right)
}

// `bvule`
pub(crate) fn bvule(left: u64, right: u64) -> u64
    ensures { result ≡ bvule_value left right }
{
    u64::from(left <= right)
}

// `ite`
pub(crate) fn ite(test: u64, left: u64, right: u64) -> u64
    ensures { result ≡ ite_value test left right }
{
    if test == 1 { left } else { right }
}
