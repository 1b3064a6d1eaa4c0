//! The operator table: names, and operand counts and sort rules, as constant arrays, and the value of an operator by its number.
ghost use Rattle.std.specs.Prelude.{◌≡◌};
ghost use Rattle.forest.specs.code.Search.{SlotsOf, TablesOf, joined, starts_of};
ghost use Rattle.operators.specs.Operators.{operator_at, operator_of, operators, takes};
ghost use Rattle.operators.specs.code.Rules.{sort_rule};
ghost use Rattle.operators.specs.code.Operators.{Applied, FixedApplied, FixedOperable, LaterApplied, LaterOperable, Operable};
ghost use Rattle.operators.specs.code.Operators.{ResultSort, Sortable, spellings};

use crate::rules::Rule;
use crate::signed::{bvashr, bvsdiv, bvsle, bvslt, bvsmod, bvsrem};
use crate::truth::{
    AND, OR, XOR, all_alike, all_differ, and_of, bvule, bvult, group_left, group_right, ite,
    not_of, operand, or_of, xor_of,
};
use crate::vectors::{
    bvadd, bvand, bvlshr, bvmul, bvneg, bvnot, bvor, bvshl, bvsub, bvudiv, bvurem, bvxor, concat,
    extract,
};
use forest::search::{SLOTS, find_word};

// How many operators there are; also the number that stands for none.
pub const OPERATORS: usize = 34;

// The number of `(_ extract i j)`.
pub const EXTRACT: usize = 22;

// The names of the operators, one after the other.
const NAMES: [u8; 164] =
    *b"notandorxor=>=distinctitebvnotbvnegbvandbvorbvxorbvaddbvsubbvmulbvudivbvurembvshlbvlshrbvultconcatextractbvsdivbvsrembvsmodbvashrbvsltbvslebvsgtbvsgebvulebvugtbvuge";

// Where the name of each operator starts; the last number is where the last name ends.
const STARTS: [usize; OPERATORS + 1] = [
    0, // not
    3, // and
    6, // or
    8, // xor
    11, // =>
    13, // =
    14, // distinct
    22, // ite
    25, // bvnot
    30, // bvneg
    35, // bvand
    40, // bvor
    44, // bvxor
    49, // bvadd
    54, // bvsub
    59, // bvmul
    64, // bvudiv
    70, // bvurem
    76, // bvshl
    81, // bvlshr
    87, // bvult
    92, // concat
    98, // extract
    105, // bvsdiv
    111, // bvsrem
    117, // bvsmod
    123, // bvashr
    129, // bvslt
    134, // bvsle
    139, // bvsgt
    144, // bvsge
    149, // bvule
    154, // bvugt
    159, // bvuge
    164,
];

// In the slot of each name the operator's number; `~` in the others. `tools/slots` writes it.
const SLOTS_OF: [u8; SLOTS] =
    *b"~~~~~~~~~~~~~~~~~~~\x1c~~~~\x18~~~~~~~~~\x1b~~~~~~~~~~~~~~~~~~~~~~~~~~\x10~~~~~~~\x1a~~~~~~~~~\x0e~~\x21~~~~~~~~~~~~~~\x20~~~~\x04~\x0d~~~~~~~~\x15~~~\x1f~~~~~~~~~~\
      ~~~~\x14~~~~~~~~~~~~~~~~~~~\x05~~~~~~~~~~~~~~~~~~~~~\x0a~~~~~~~~~~~~~~~~~~~~~~~\x11~~~~~~~~~~~~~~~~~~~~~~~~~~~~~~~~~~~~~~~~\x09~~~~~~~~~~~~~~~~\
      ~~\x13~~~~~~~~~~~~~~~~~~\x07~~~~~~~~~~~~~~~~~~~~\x0c~~~~~~~~\x0f~~~~~~~~~~~~~~\x08~~~~~~~~~\x0b~~~~~~~~~~~~~~~~~~~\x19~\x01~~~~~~~~~~~~~~~~~\x16~~~~~~~~~~~\
      ~~~~~~~~~~~~~~~\x17~~~~~~~~~~~~~~~~~\x06~~~~~~~~~~~~~~~~~~~~~~~~~~~~~~~~~~~~~~~~~~~~~~~~~~~~~~~~~~~~\x03~~~~~~~~~~~~~~~~~\x1e~~~~~\x00~\x02~~~~~\x12\x1d";

// How many operands an operator has, or has at least; whether it takes any number of operands from that on; and its sort rule.
#[derive(Clone, Copy)]
struct Entry(usize, bool, Rule);

// The entry of each operator.
static ENTRIES: [Entry; OPERATORS] = [
    Entry(1, false, Rule::Logic), // not
    Entry(2, true, Rule::Logic), // and
    Entry(2, true, Rule::Logic), // or
    Entry(2, true, Rule::Logic), // xor
    Entry(2, true, Rule::Logic), // =>
    Entry(2, true, Rule::Equality), // =
    Entry(2, true, Rule::Equality), // distinct
    Entry(3, false, Rule::Choice), // ite
    Entry(1, false, Rule::Width), // bvnot
    Entry(1, false, Rule::Width), // bvneg
    Entry(2, false, Rule::Width), // bvand
    Entry(2, false, Rule::Width), // bvor
    Entry(2, false, Rule::Width), // bvxor
    Entry(2, false, Rule::Width), // bvadd
    Entry(2, false, Rule::Width), // bvsub
    Entry(2, false, Rule::Width), // bvmul
    Entry(2, false, Rule::Width), // bvudiv
    Entry(2, false, Rule::Width), // bvurem
    Entry(2, false, Rule::Width), // bvshl
    Entry(2, false, Rule::Width), // bvlshr
    Entry(2, false, Rule::Order), // bvult
    Entry(2, false, Rule::Joining), // concat
    Entry(1, false, Rule::Cutting), // extract
    Entry(2, false, Rule::Width), // bvsdiv
    Entry(2, false, Rule::Width), // bvsrem
    Entry(2, false, Rule::Width), // bvsmod
    Entry(2, false, Rule::Width), // bvashr
    Entry(2, false, Rule::Order), // bvslt
    Entry(2, false, Rule::Order), // bvsle
    Entry(2, false, Rule::Order), // bvsgt
    Entry(2, false, Rule::Order), // bvsge
    Entry(2, false, Rule::Order), // bvule
    Entry(2, false, Rule::Order), // bvugt
    Entry(2, false, Rule::Order), // bvuge
];

// The table of the names of the operators.
pub fn operator_names() -> [u8; 164]
    ensures { result ≡ joined (spellings operators) }
{
    NAMES
}

// The table of where they start.
pub fn operator_starts() -> [usize; OPERATORS + 1]
    ensures { result ≡ starts_of (spellings operators) }
{
    STARTS
}

// The table of their slots.
pub fn operator_slots() -> [u8; SLOTS]
    ensures { SlotsOf (spellings operators) result }
{
    SLOTS_OF
}

// The number of the operator that a word names, by the three tables; past the last operator where it names none.
pub fn operator_of(names: &[u8], starts: &[usize], slots: &[u8], word: &[u8]) -> usize
    requires { TablesOf (spellings operators) names.now starts.now slots.now }
    ensures { result ≡ operator_of word.now }
{
    find_word(names, starts, slots, word)
}

// The entry of an operator; past the last operator one with no operands.
fn entry_of(operator: usize) -> Entry
    ensures operands { result.0 ≡ (operator_at operator).operands }
    ensures many { result.1 ≡ (operator_at operator).many }
    ensures rule { sort_rule result.2 ≡ (operator_at operator).rule }
{
    if operator < OPERATORS {
        ENTRIES[operator]
    } else {
        Entry(0, false, Rule::Logic)
    }
}

// How many operands an operator has, or has at least; 0 past the last operator.
pub fn operands_of(operator: usize) -> usize
    ensures { result ≡ (operator_at operator).operands }
{
    let Entry(operands, _, _) = entry_of(operator);
    operands
}

// Whether an operator takes a number of operands.
pub fn takes(operator: usize, count: usize) -> bool
    ensures { result ≡ takes (operator_at operator) count }
{
    let Entry(least, many, _) = entry_of(operator);
    if many {
        return least <= count;
    }
    count == least
}

// An operator's sort rule; `Logic` past the last operator.
pub fn rule_of(operator: usize) -> Rule
    ensures { sort_rule result ≡ (operator_at operator).rule }
{
    let Entry(_, _, rule) = entry_of(operator);
    rule
}

// The sort of an operator, with `high` and `low` the numbers of an `extract`, over operands that it takes, of which the first two have the sorts `first` and
// `second`; what is not there is 0.
pub fn result_sort(operator: usize, high: u64, low: u64, first: u64, second: u64) -> u64
    requires { Sortable operator high low first second }
    ensures { ResultSort operator high low first second result }
{
    match rule_of(operator) {
        Rule::Choice => second,
        Rule::Width => first,
        Rule::Joining => first + second,
        Rule::Cutting => high - low + 1,
        Rule::Logic | Rule::Equality | Rule::Order => 0,
    }
}

// The value of an operator behind `extract` over operands of the values `one` and `two`, of a width.
fn later_value(operator: usize, width: u64, one: u64, two: u64) -> u64
    requires { LaterOperable operator width one two }
    ensures { LaterApplied operator width one two result }
{
    match operator {
        23 => bvsdiv(width, one, two),
        24 => bvsrem(width, one, two),
        25 => bvsmod(width, one, two),
        26 => bvashr(width, one, two),
        27 => bvslt(width, one, two),
        28 => bvsle(width, one, two),
        29 => bvslt(width, two, one), // bvsgt
        30 => bvsle(width, two, one), // bvsge
        31 => bvule(one, two),
        32 => bvult(two, one), // bvugt
        33 => bvule(two, one), // bvuge
        _ => 0,
    }
}

// The value of an operator that takes one number of operands only, with `high` and `low` the numbers of an `extract`, over operands of the values `one`, `two`
// and `three`, of which the first two have the widths `first` and `second`; what is not there is 0.
fn fixed_value(
    operator: usize,
    high: u64,
    low: u64,
    first: u64,
    second: u64,
    one: u64,
    two: u64,
    three: u64,
) -> u64
    requires { FixedOperable operator high low first second one two three }
    ensures { FixedApplied operator high low first second one two three result }
{
    match operator {
        0 => not_of(one),
        7 => ite(one, two, three),
        8 => bvnot(first, one),
        9 => bvneg(first, one),
        10 => bvand(one, two),
        11 => bvor(one, two),
        12 => bvxor(one, two),
        13 => bvadd(first, one, two),
        14 => bvsub(first, one, two),
        15 => bvmul(first, one, two),
        16 => bvudiv(first, one, two),
        17 => bvurem(one, two),
        18 => bvshl(first, one, two),
        19 => bvlshr(first, one, two),
        20 => bvult(one, two),
        21 => concat(first, second, one, two),
        EXTRACT => extract(high, low, one),
        _ => later_value(operator, first, one, two),
    }
}

// The value of an operator, with `high` and `low` the numbers of an `extract`, over operands of these values, of which the first two have the widths `first`
// and `second`; a width that is not there is 0.
pub fn apply(operator: usize, high: u64, low: u64, first: u64, second: u64, values: &[u64]) -> u64
    requires { Operable operator high low first second values.now }
    ensures { Applied operator high low first second values.now result }
{
    match operator {
        AND => group_left(and_of, values),
        OR => group_left(or_of, values),
        XOR => group_left(xor_of, values),
        4 => group_right(values), // =>
        5 => all_alike(values), // =
        6 => all_differ(values), // distinct
        _ => fixed_value(
            operator,
            high,
            low,
            first,
            second,
            operand(values, 0),
            operand(values, 1),
            operand(values, 2),
        ),
    }
}
