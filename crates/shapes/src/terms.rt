//! Shapes of terms.
ghost use Rattle.std.specs.Prelude.{◌≡◌, false, not, ◌&&◌};
ghost use Rattle.lexemes.specs.Lists.{indexed, is, is_constant, is_list, item};
ghost use Rattle.lexemes.specs.code.Standing.{Between, ItemAt, ListAt};
ghost use Rattle.shapes.specs.Shapes.{application_shape, head_shape, indexed_shape, term_shape, term_shapes};

use crate::lists::{count_in, item_in};
use lexemes::codes::{CONSTANT, EXTRACT, FALSE, OTHER, TRUE, UNDERSCORE, VARIABLE};
use lexemes::{CLOSE, NUMERAL, OPEN, SYMBOL, WEIGHTS, code_at, next_at};

// Whether an item is `(_ extract i j)`.
fn is_extract(lexemes: &[u64], at: usize) -> bool
    requires { ItemAt lexemes.now at }
    ensures { (here : ItemAt lexemes.now at) → result ≡ (is_list here.label && indexed "extract" 2 here.operands) }
{
    (code_at(lexemes, at) == OPEN)
        & (code_at(lexemes, at + 1) == UNDERSCORE)
        & (code_at(lexemes, at + 2) == EXTRACT)
        & (code_at(lexemes, at + 3) == NUMERAL)
        & (code_at(lexemes, at + 4) == NUMERAL)
        & (code_at(lexemes, at + 5) == CLOSE)
}

// Whether an item is a constant `(_ bvN n)`.
fn is_constant(lexemes: &[u64], at: usize) -> bool
    requires { ItemAt lexemes.now at }
    ensures { (here : ItemAt lexemes.now at) → result ≡ (is_list here.label && is_constant here.operands) }
{
    (code_at(lexemes, at) == OPEN)
        & (code_at(lexemes, at + 1) == UNDERSCORE)
        & (code_at(lexemes, at + 2) > OTHER)
        & (code_at(lexemes, at + 3) == NUMERAL)
        & (code_at(lexemes, at + 4) == CLOSE)
}

// Whether an item is a term that is a list begun by `_`.
fn is_indexed(lexemes: &[u64], at: usize) -> bool
    requires { ItemAt lexemes.now at }
    ensures { (here : ItemAt lexemes.now at) → result ≡ (is_list here.label && indexed_shape here.operands) }
{
    is_extract(lexemes, at) | is_constant(lexemes, at)
}

// Whether an item may head a term.
fn head_shape(lexemes: &[u64], at: usize) -> bool
    requires { ItemAt lexemes.now at }
    ensures { (here : ItemAt lexemes.now at) → result ≡ head_shape here.label here.operands }
{
    let code = code_at(lexemes, at);
    let other = (code == TRUE) | (code == FALSE) | (code == CONSTANT) | (code == VARIABLE);
    (code >= SYMBOL) & !other | is_extract(lexemes, at)
}

// Whether a list is a head and operands, and no `(_ ..)`.
fn has_head(lexemes: &[u64], at: usize) -> bool
    requires { ListAt lexemes.now at }
    ensures { (here : ListAt lexemes.now at) → result ≡ (not (is "_" (item 0 here.operands)) && application_shape here.operands) }
{
    if count_in(lexemes, at) < 2 {
        return false;
    }
    let head = item_in(lexemes, at, 0);
    (code_at(lexemes, head) != UNDERSCORE) & head_shape(lexemes, head)
}

// Whether all of the items from a word on to another are terms: none is a keyword, one after the other each list is tested, and the walk goes on behind its head.
fn term_shapes(lexemes: &[u64], first: usize, end: usize) -> bool
    requires { Between lexemes.now first end }
    ensures { (b : Between lexemes.now first end) → result ≡ term_shapes false b.items }
{
    let mut at = first;
    while at < end {
        let code = code_at(lexemes, at);
        if (WEIGHTS <= code) & (code < SYMBOL) {
            return false;
        }
        if code != OPEN {
            at += 1;
        } else if is_indexed(lexemes, at) {
            at = next_at(lexemes, at);
        } else if has_head(lexemes, at) {
            at = next_at(lexemes, at + 1);
        } else {
            return false;
        }
    }
    true
}

// Whether an item is a term.
pub fn term_shape(lexemes: &[u64], at: usize) -> bool
    requires { ItemAt lexemes.now at }
    ensures { (here : ItemAt lexemes.now at) → result ≡ term_shape here.label here.operands }
{
    term_shapes(lexemes, at, next_at(lexemes, at))
}
