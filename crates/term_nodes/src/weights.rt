//! The attributes of rules: the weight that they give, and the limit on weights.
ghost use Rattle.std.specs.Prelude.{◌≡◌};
ghost use Rattle.lexemes.specs.code.Standing.{Between, ItemAt};
ghost use Rattle.shapes.specs.Shapes.{rule_shape};
ghost use Rattle.term_nodes.specs.Rules.{attribute_past, attributes_in, attributes_past, weight_by};
ghost use Rattle.written_sorts.specs.code.Places.{ShapedAt};

use forest::numbers::least;
use lexemes::items::{count_items, item_at};
use lexemes::{NUMERAL, code_at, next_at, value_at};
use shapes::annotations::is_annotated;

// The greatest weight that a rule may have.
pub const MOST_WEIGHT: u64 = 65535;

// The word of an attribute's numeral that is past the limit; `nowhere` for another word.
fn attribute_past(lexemes: &[u64], at: usize, nowhere: usize) -> usize
    requires { ItemAt lexemes.now at }
    ensures { (here : ItemAt lexemes.now at) → result ≡ attribute_past nowhere here.label here.operands }
{
    if (code_at(lexemes, at) == NUMERAL) & (value_at(lexemes, at) > MOST_WEIGHT) {
        return at;
    }
    nowhere
}

// The least of those words among the attributes from a word to the bracket that closes their list.
fn attributes_past(lexemes: &[u64], first: usize, close: usize, nowhere: usize) -> usize
    requires { Between lexemes.now first close }
    ensures { (b : Between lexemes.now first close) → result ≡ attributes_past nowhere b.items }
{
    let mut place = nowhere;
    let mut at = first;
    while at < close {
        place = least(place, attribute_past(lexemes, at, nowhere));
        at = next_at(lexemes, at);
    }
    place
}

// The least word past the limit on weights in the rule at a word.
pub fn weights_past(lexemes: &[u64], at: usize, nowhere: usize) -> usize
    requires { ItemAt lexemes.now at }
    ensures { (here : ItemAt lexemes.now at) → result ≡ attributes_past nowhere (attributes_in here.label here.operands) }
{
    if !is_annotated(lexemes, at) {
        return nowhere;
    }
    let close = next_at(lexemes, at) - 1;
    attributes_past(lexemes, item_at(lexemes, at + 1, close, 2), close, nowhere)
}

// The weight of the rule at a word.
pub fn weight_of(lexemes: &[u64], at: usize) -> u64
    requires { ShapedAt rule_shape lexemes.now at }
    ensures { (p : ShapedAt rule_shape lexemes.now at) → result ≡ weight_by (attributes_in p.here.label p.here.operands) }
{
    if !is_annotated(lexemes, at) {
        return 0;
    }
    let close = next_at(lexemes, at) - 1;
    let first = item_at(lexemes, at + 1, close, 2);
    if count_items(lexemes, first, close) != 2 {
        return 0;
    }
    value_at(lexemes, first + 1)
}
