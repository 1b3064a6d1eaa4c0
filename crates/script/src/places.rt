//! The table of places: the signatures in front, then where each body, constraint and assumption begins, the numbers of each synthesized function, and its rules. No
//! other module knows which number stands where.
ghost use Rattle.std.specs.Prelude.{[], ◌∷◌, ◌≡◌, ◌+◌, ◌*◌, ◌≤◌, ◌<◌, drop, length, set};
ghost use Rattle.std.proofs.lemmas.List.Edits.{sets};
ghost use Rattle.forest.specs.Limits.{most_arguments, most_defined, most_functions, most_rules};
ghost use Rattle.script.specs.code.Places.{arguments_in, before_in, bodies_place, body_in, constraints_place, form_rows_in, forms_in};
ghost use Rattle.script.specs.code.Places.{function_bodies_place, function_width, functions_place, offset_in, offsets_place, own_rules, places_length};
ghost use Rattle.script.specs.code.Places.{result_in, rule_count_in, rules_of, sorts_of, stated_count, stated_of};

use crate::signatures;
use forest::limits;
use forest::numbers::{entry_at, put_entry};

// Where the numbers of bodies begin, behind the rows of signatures: those of `define-fun`s, then those of synthesized functions.
const BODIES: usize = signatures::ROW * signatures::ROWS;

const FUNCTION_BODIES: usize = BODIES + limits::DEFINED;

// Where those of constraints begin, and behind them those of assumptions; and how many there are of both.
const CONSTRAINTS: usize = FUNCTION_BODIES + limits::FUNCTIONS;

const STATED: usize = limits::FIRST_ASSUMPTION + limits::ASSUMPTIONS;

// Where the numbers of synthesized functions begin, and how many each has.
const NUMBERS: usize = CONSTRAINTS + STATED;

const NUMBER_ROW: usize = 4;

// Where their rules begin, and how many numbers the rules of each take.
const RULES: usize = NUMBERS + NUMBER_ROW * limits::FUNCTIONS;

pub const OWN_RULES: usize = derivation::RULE * limits::RULES;

// Where the offsets of the first words of their bodies begin.
const OFFSETS: usize = RULES + OWN_RULES * limits::FUNCTIONS;

// How many numbers the table has.
pub const PLACES: usize = OFFSETS + limits::FUNCTIONS;

// How many arguments a synthesized function has.
pub fn arguments_of(places: &[u64], function: usize) -> usize
    requires { function < most_functions }
    ensures { result ≡ arguments_in places.now function }
{
    entry_at(
        places,
        signatures::ROW * (signatures::FUNCTION_ROW + function),
    ) as usize
}

// The sort of a synthesized function.
pub fn result_of(places: &[u64], function: usize) -> u64
    requires { function < most_functions }
    ensures { result ≡ result_in places.now function }
{
    entry_at(
        places,
        signatures::ROW * (signatures::FUNCTION_ROW + function) + 1,
    )
}

// The node at which the body of a synthesized function begins.
pub fn body_of(places: &[u64], function: usize) -> usize
    requires { function < most_functions }
    ensures { result ≡ body_in places.now function }
{
    entry_at(places, FUNCTION_BODIES + function) as usize
}

// The row at which the forms of a synthesized function begin.
pub fn forms_of(places: &[u64], function: usize) -> usize
    requires { function < most_functions }
    ensures { result ≡ forms_in places.now function }
{
    entry_at(places, NUMBERS + NUMBER_ROW * function) as usize
}

// How many rows the forms of a synthesized function take.
pub fn form_rows_of(places: &[u64], function: usize) -> usize
    requires { function < most_functions }
    ensures { result ≡ form_rows_in places.now function }
{
    entry_at(places, NUMBERS + NUMBER_ROW * function + 1) as usize
}

// How many rules a synthesized function has.
fn rule_count_of(places: &[u64], function: usize) -> usize
    requires { function < most_functions }
    ensures { result ≡ rule_count_in places.now function }
{
    entry_at(places, NUMBERS + NUMBER_ROW * function + 2) as usize
}

// How many `define-fun`s stand before a synthesized function.
pub fn defined_before(places: &[u64], function: usize) -> usize
    requires { function < most_functions }
    ensures { result ≡ before_in places.now function }
{
    entry_at(places, NUMBERS + NUMBER_ROW * function + 3) as usize
}

// The offset of the first word of the body of a synthesized function.
pub fn offset_of(places: &[u64], function: usize) -> usize
    requires { function < most_functions }
    ensures { result ≡ offset_in places.now function }
{
    entry_at(places, OFFSETS + function) as usize
}

// Where the rules of a synthesized function begin.
pub fn rules_place(function: usize) -> usize
    requires { function < most_functions }
    ensures { result ≡ own_rules function }
{
    RULES + OWN_RULES * function
}

// The rules of a synthesized function.
pub fn rules_of<'a>(places: &'a [u64], function: usize) -> &'a [u64]
    requires function_lt_most_functions { function < most_functions }
    requires places_len { length places.now ≡ places_length }
    requires function_bound { rule_count_in places.now function ≤ most_rules }
    ensures { result.now ≡ rules_of places.now function }
{
    let first = rules_place(function);
    let end = first + derivation::RULE * rule_count_of(places, function);
    &places[first..end]
}

// The sorts of the arguments of a synthesized function.
pub fn sorts_of<'a>(places: &'a [u64], function: usize) -> &'a [u64]
    requires function_lt_most_functions { function < most_functions }
    requires places_len { length places.now ≡ places_length }
    requires function_bound { arguments_in places.now function ≤ most_arguments }
    ensures { result.now ≡ sorts_of places.now function }
{
    let first = signatures::ROW * (signatures::FUNCTION_ROW + function) + 2;
    let end = first + arguments_of(places, function);
    &places[first..end]
}

// The nodes at which all bodies begin, those of `define-fun`s first.
pub fn bodies_of<'a>(places: &'a [u64]) -> &'a [u64]
    requires { length places.now ≡ places_length }
    ensures { result.now ≡ drop bodies_place places.now }
{
    &places[BODIES..]
}

// The nodes at which constraints and assumptions begin.
pub fn stated_of<'a>(places: &'a [u64]) -> &'a [u64]
    requires { length places.now ≡ places_length }
    ensures { result.now ≡ stated_of places.now }
{
    &places[CONSTRAINTS..NUMBERS]
}

// Puts the node at which the body of a `define-fun` begins.
pub fn put_defined_body(places: &mut [u64], defined: usize, node: usize)
    requires { defined < most_defined }
    ensures { places.new ≡ set places.old (bodies_place + defined) node }
{
    put_entry(places, BODIES + defined, node as u64);
}

// Puts the node at which the constraint or the assumption of a number begins.
pub fn put_stated(places: &mut [u64], number: usize, node: usize)
    requires { number < stated_count }
    ensures { places.new ≡ set places.old (constraints_place + number) node }
{
    put_entry(places, CONSTRAINTS + number, node as u64);
}

// Puts the node at which the body of a synthesized function begins, and the offset of the body's first word.
pub fn put_body(places: &mut [u64], function: usize, node: usize, offset: usize)
    requires { function < most_functions }
    ensures { places.new ≡ set (set places.old (function_bodies_place + function) node) (offsets_place + function) offset }
{
    put_entry(places, FUNCTION_BODIES + function, node as u64);
    put_entry(places, OFFSETS + function, offset as u64);
}

// Puts the numbers of a synthesized function: the row at which its forms begin, how many rows they take, how many rules it has, and how many `define-fun`s
// stand before it.
pub fn put_numbers(
    places: &mut [u64],
    function: usize,
    forms: usize,
    rows: usize,
    rules: usize,
    before: usize,
)
    requires function_lt_most_functions { function < most_functions }
    requires function_width_in_bounds { functions_place + function_width * function + function_width ≤ length places.old }
    ensures { places.new ≡ sets places.old (functions_place + function_width * function) (forms ∷ rows ∷ rules ∷ before ∷ []) }
{
    let at = NUMBERS + NUMBER_ROW * function;
    places[at] = forms as u64;
    places[at + 1] = rows as u64;
    places[at + 2] = rules as u64;
    places[at + 3] = before as u64;
}
