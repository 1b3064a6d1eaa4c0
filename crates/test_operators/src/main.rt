//! Runs every operator at every width, on edge operands, on all operands where the width is at most 4, and on pseudo-random ones, and prints for each width a
//! hash of the values of each operator, with two operands where it takes more; then of each operator that takes more, a hash of its values with 3, with 4, with 5
//! and with 6 operands.
//! tests/operators.py computes the same lines from SMT-LIB's meaning of the operators.
#![tactic(auto)]

ghost use Rattle.std.specs.Prelude.{◌≡◌, ◌<◌, ◌≤◌, true, if◌then◌else◌, nat_lt};
ghost use Rattle.operators.specs.Operators.{operator_at, operator_count, takes};
ghost use Rattle.operators.specs.Sorts.{Fit, choice, cutting, joining, max_width};
ghost use Rattle.operators.specs.code.Vectors.{Width, Word, Words};
ghost use Rattle.test_operators.specs.Alike.{Alike};
ghost use Rattle.test_operators.specs.Wide.{Wide, most_operands};

use operators::ones;
use operators::operators::{OPERATORS, apply, operands_of, rule_of, takes};
use operators::rules::Rule;
use std::io;
use std::io::Write;

// How many edge operands there are, and pairs of them.
const EDGES: u64 = 6;

const EDGE_PAIRS: u64 = EDGES * EDGES;

// How many pseudo-random pairs of operands each operator runs on at each width.
const PAIRS: u64 = 10_000;

// How many pseudo-random pairs the operands are made of where there are more than two.
const MANY_PAIRS: u64 = 1_000;

// How many operands there are at most.
const MOST_OPERANDS: usize = 6;

// The number after another in a pseudo-random sequence: Marsaglia's xorshift of 64 bits.
fn next(number: u64) -> u64 {
    let first = number ^ (number << 13);
    let second = first ^ (first >> 7);
    second ^ (second << 17)
}

// A hash with one value more.
fn fold(hash: u64, value: u64) -> u64 {
    next(hash ^ value).wrapping_add(0x9e37_79b9_7f4a_7c15)
}

// The low bits of a number.
fn low(number: u64, width: u64) -> u64
    requires { Width width }
    ensures { Word width result }
{
    number & ones(width)
}

// An edge operand, in its low bits: 0, 1, all ones, the highest bit of the width alone, all bits below it, or all ones but the last.
fn edge(index: u64, width: u64) -> u64
    requires { Width width }
{
    match index {
        0 => 0,
        1 => 1,
        2 => u64::MAX,
        3 => 1 << (width - 1),
        4 => u64::MAX >> (64 - width) >> 1,
        _ => u64::MAX - 1,
    }
}

// The operand where the operator has a second one, else 0.
fn second(operator: usize, operand: u64) -> u64
    ensures { result ≡ (if nat_lt (operator_at operator).operands 2 then 0 else operand) }
{
    if operands_of(operator) < 2 {
        return 0;
    }
    operand
}

// The value of `concat` over a value of the width and bits of `source`, of a width that `source` chooses; 0 where the first leaves no room.
fn joined(operator: usize, width: u64, value: u64, source: u64) -> u64
    requires { (operator < operator_count) × ((operator_at operator).rule ≡ joining) × Word width value }
{
    if width == 64 {
        return 0;
    }
    let other = 1 + source % (64 - width);
    let values = [value, low(source, other)];
    apply(operator, 0, 0, width, other, &values)
}

// The value of `(_ extract high lowest)` over a value of the width, where `source` chooses both numbers.
fn extracted(operator: usize, width: u64, value: u64, source: u64) -> u64
    requires { (operator < operator_count) × ((operator_at operator).rule ≡ cutting) × Word width value }
{
    let high = source % width;
    let lowest = (source >> 8) % (high + 1);
    let values = [value];
    apply(operator, high, lowest, width, 0, &values)
}

// The value of `ite` over a Bool and two values of the width.
fn chosen(operator: usize, width: u64, test: u64, one: u64, two: u64) -> u64
    requires { (operator < operator_count) × ((operator_at operator).rule ≡ choice) × Word 1 test × Words width one two }
{
    let values = [test, one, two];
    apply(operator, 0, 0, 0, width, &values)
}

// The value of an operator of one or two operands of one sort over the first of these values, or both.
fn alike(operator: usize, sort: u64, one: u64, two: u64) -> u64
    requires { Alike operator sort one two }
{
    let values = [one, two];
    let count = operands_of(operator);
    apply(
        operator,
        0,
        0,
        sort,
        second(operator, sort),
        &values[..count],
    )
}

// The value of an operator over operands that are made of `left` and `right`, of the width where they are vectors.
fn value(operator: usize, width: u64, left: u64, right: u64) -> u64
    requires { (operator < operator_count) × Width width }
{
    let one = low(left, width);
    let two = low(right, width);
    match rule_of(operator) {
        Rule::Logic => alike(operator, 0, low(left, 1), low(right, 1)),
        Rule::Choice => chosen(operator, width, low(left, 1), one, two),
        Rule::Joining => joined(operator, width, one, right),
        Rule::Cutting => extracted(operator, width, one, right),
        Rule::Equality | Rule::Width | Rule::Order => alike(operator, width, one, two),
    }
}

// The hash of an operator over all pairs of edge operands of a width.
fn edges(operator: usize, width: u64) -> u64
    requires { (operator < operator_count) × Width width }
{
    let mut hash = 0;
    for k in 0..EDGE_PAIRS {
        hash = fold(
            hash,
            value(
                operator,
                width,
                edge(k / EDGES, width),
                edge(k % EDGES, width),
            ),
        );
    }
    hash
}

// How many pairs of operands of a width there are, where all of them are run; 0 above.
fn small_pairs(width: u64) -> u64 {
    match width {
        1 => 4,
        2 => 16,
        3 => 64,
        4 => 256,
        _ => 0,
    }
}

// That hash with the values over all pairs of operands of a width up to 4.
fn small(operator: usize, width: u64, start: u64) -> u64
    requires { (operator < operator_count) × Width width }
{
    let count = small_pairs(width);
    let mut hash = start;
    for k in 0..count {
        hash = fold(hash, value(operator, width, k >> width % 64, low(k, width)));
    }
    hash
}

// That hash with the values over pseudo-random pairs, of which the second has any number of bits, so that shifts and quotients are seldom 0.
fn pairs(operator: usize, width: u64, start: u64) -> u64
    requires { (operator < operator_count) × Width width }
{
    let mut hash = start;
    let mut left = width;
    for _k in 0..PAIRS {
        let right = next(left);
        hash = fold(
            hash,
            value(operator, width, left, right >> (left >> 32) % 64),
        );
        left = next(right);
    }
    hash
}

// One of several operands of a sort: the low bits of `left` shifted, where three bits of `right` choose the shift, of two where its highest bit is 0, so that
// operands are often alike, or of eight, so that they are often all different.
fn operand(index: u64, sort: u64, left: u64, right: u64) -> u64
    requires { (index < most_operands) × (sort ≤ max_width) }
    ensures { Fit sort result }
{
    let bits = left >> (right >> 3 * index) % (2 + 6 * (right >> 63));
    if sort == 0 {
        return low(bits, 1);
    }
    low(bits, sort)
}

// The value of an operator over so many operands of the sort that are made of `left` and `right`.
fn several(operator: usize, sort: u64, count: usize, left: u64, right: u64) -> u64
    requires { Wide operator sort × (3 ≤ count) × (count ≤ most_operands) }
{
    let values = [
        operand(0, sort, left, right),
        operand(1, sort, left, right),
        operand(2, sort, left, right),
        operand(3, sort, left, right),
        operand(4, sort, left, right),
        operand(5, sort, left, right),
    ];
    apply(operator, 0, 0, sort, sort, &values[..count])
}

// The hash of an operator over so many operands of the sort, made of the pseudo-random pairs of a width.
fn many(operator: usize, sort: u64, count: usize, width: u64) -> u64
    requires { Wide operator sort × (3 ≤ count) × (count ≤ most_operands) }
{
    let mut hash = 0;
    let mut left = width;
    for _k in 0..MANY_PAIRS {
        let right = next(left);
        hash = fold(hash, several(operator, sort, count, left, right));
        left = next(right);
    }
    hash
}

// The sort that operands of a wide operator have at a width.
fn sort_of(operator: usize, width: u64) -> u64
    requires { (operator < operator_count) × (takes (operator_at operator) most_operands ≡ true) × Width width }
    ensures { Wide operator result }
{
    match rule_of(operator) {
        Rule::Logic => 0,
        _ => width,
    }
}

// Prints a hash.
fn print_hash(out: &mut impl Write, hash: u64) -> io::Result<()> {
    write!(out, " {hash:016x}")
}

// Prints the hashes of an operator at a width with 3 operands, with 4, with 5 and with 6.
fn more_operands(out: &mut impl Write, operator: usize, width: u64) -> io::Result<()>
    requires { (operator < operator_count) × (takes (operator_at operator) most_operands ≡ true) × Width width }
{
    for count in 3..=MOST_OPERANDS {
        print_hash(out, many(operator, sort_of(operator, width), count, width))?;
    }
    Ok(())
}

// Prints them of each operator that takes as many operands as are made.
fn further(out: &mut impl Write, width: u64) -> io::Result<()>
    requires { Width width }
{
    for operator in 0..OPERATORS {
        if takes(operator, MOST_OPERANDS) {
            more_operands(out, operator, width)?;
        }
    }
    Ok(())
}

// Prints a width and the hashes of the operators at it.
fn line(out: &mut impl Write, width: u64) -> io::Result<()>
    requires { Width width }
{
    write!(out, "{width}")?;
    for operator in 0..OPERATORS {
        let hash = pairs(
            operator,
            width,
            small(operator, width, edges(operator, width)),
        );
        print_hash(out, hash)?;
    }
    further(out, width)?;
    out.write_all(b"\n")
}

fn main(rt: HostRuntime) -> io::Result<()> {
    let mut out = io::writer(&rt);
    for width in 1..=64 {
        line(&mut out, width)?;
    }
    Ok(())
}
