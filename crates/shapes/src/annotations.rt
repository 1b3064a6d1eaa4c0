//! Rules that have attributes.
ghost use Rattle.std.specs.Prelude.{◌≡◌, false};
ghost use Rattle.lexemes.specs.code.Standing.{Between, ItemAt, ListAt};
ghost use Rattle.shapes.specs.Shapes.{annotated_shape, attributes_shape, is_annotated, term_rule_shape};

use crate::lists::{count_in, item_in};
use crate::terms::term_shape;
use lexemes::codes::BANG;
use lexemes::items::item_at;
use lexemes::{NUMERAL, OPEN, WEIGHT, code_at, next_at};

// Whether a rule is a list begun by `!`.
pub fn is_annotated(lexemes: &[u64], at: usize) -> bool
    requires { ItemAt lexemes.now at }
    ensures { (here : ItemAt lexemes.now at) → result ≡ is_annotated here.label here.operands }
{
    (code_at(lexemes, at) == OPEN) & (code_at(lexemes, at + 1) == BANG)
}

// Whether the items from a word to the bracket that closes their list are attributes: `:weight` and a numeral, one pair after the other.
fn attributes_shape(lexemes: &[u64], first: usize, close: usize) -> bool
    requires { Between lexemes.now first close }
    ensures { (b : Between lexemes.now first close) → result ≡ attributes_shape false b.items }
{
    let mut named = false;
    let mut at = first;
    while at < close {
        let code = code_at(lexemes, at);
        if !((named & (code == NUMERAL)) | (!named & (code == WEIGHT))) {
            return false;
        }
        named = !named;
        at = next_at(lexemes, at);
    }
    !named
}

// Whether a list begun by `!` is a term with attributes.
fn annotated_shape(lexemes: &[u64], at: usize) -> bool
    requires { ListAt lexemes.now at }
    ensures { (here : ListAt lexemes.now at) → result ≡ annotated_shape here.operands }
{
    if count_in(lexemes, at) < 4 {
        return false;
    }
    let close = next_at(lexemes, at) - 1;
    let first = item_at(lexemes, at + 1, close, 2);
    term_shape(lexemes, item_in(lexemes, at, 1)) & attributes_shape(lexemes, first, close)
}

// Whether an item is a rule that is a term, with attributes or without.
pub(crate) fn term_rule_shape(lexemes: &[u64], at: usize) -> bool
    requires { ItemAt lexemes.now at }
    ensures { (here : ItemAt lexemes.now at) → result ≡ term_rule_shape here.label here.operands }
{
    if is_annotated(lexemes, at) {
        return annotated_shape(lexemes, at);
    }
    term_shape(lexemes, at)
}
