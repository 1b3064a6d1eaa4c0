//! Shapes of sorts, and of pairs of a symbol and a sort.
ghost use Rattle.std.specs.Prelude.{◌≡◌, ◌&&◌};
ghost use Rattle.lexemes.specs.Lists.{indexed, is_list};
ghost use Rattle.lexemes.specs.code.Standing.{Between, ItemAt};
ghost use Rattle.shapes.specs.Shapes.{all, is_list_of, pair_shape, sort_shape};

use crate::lists::{count_in, item_in, symbol_in};
use lexemes::codes::{BIT_VEC, UNDERSCORE};
use lexemes::{CLOSE, NUMERAL, OPEN, SYMBOL, code_at, next_at};

// Whether an item is `(_ BitVec n)`.
fn is_bit_vec(lexemes: &[u64], at: usize) -> bool
    requires { ItemAt lexemes.now at }
    ensures { (here : ItemAt lexemes.now at) → result ≡ (is_list here.label && indexed "BitVec" 1 here.operands) }
{
    (code_at(lexemes, at) == OPEN)
        & (code_at(lexemes, at + 1) == UNDERSCORE)
        & (code_at(lexemes, at + 2) == BIT_VEC)
        & (code_at(lexemes, at + 3) == NUMERAL)
        & (code_at(lexemes, at + 4) == CLOSE)
}

// Whether an item has the shape of a sort.
pub fn sort_shape(lexemes: &[u64], at: usize) -> bool
    requires { ItemAt lexemes.now at }
    ensures { (here : ItemAt lexemes.now at) → result ≡ sort_shape here.label here.operands }
{
    (code_at(lexemes, at) >= SYMBOL) | is_bit_vec(lexemes, at)
}

// Whether an item is a pair of a symbol and a sort.
fn pair_shape(lexemes: &[u64], at: usize) -> bool
    requires { ItemAt lexemes.now at }
    ensures { (here : ItemAt lexemes.now at) → result ≡ pair_shape here.label here.operands }
{
    if code_at(lexemes, at) != OPEN {
        return false;
    }
    if count_in(lexemes, at) != 2 {
        return false;
    }
    symbol_in(lexemes, at, 0) & sort_shape(lexemes, item_in(lexemes, at, 1))
}

// Whether all of the items from a word to the bracket that closes their list are such pairs.
fn all_pairs(lexemes: &[u64], first: usize, close: usize) -> bool
    requires { Between lexemes.now first close }
    ensures { (b : Between lexemes.now first close) → result ≡ all pair_shape b.items }
{
    let mut at = first;
    while at < close {
        if !pair_shape(lexemes, at) {
            return false;
        }
        at = next_at(lexemes, at);
    }
    true
}

// Whether an item is a list of such pairs.
pub fn pairs_shape(lexemes: &[u64], at: usize) -> bool
    requires { ItemAt lexemes.now at }
    ensures { (here : ItemAt lexemes.now at) → result ≡ is_list_of pair_shape here.label here.operands }
{
    if code_at(lexemes, at) != OPEN {
        return false;
    }
    all_pairs(lexemes, at + 1, next_at(lexemes, at) - 1)
}
