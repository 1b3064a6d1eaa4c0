//! The command `set-feature`.
ghost use Rattle.std.specs.Prelude.{◌≡◌};
ghost use Rattle.lexemes.specs.code.Standing.{ListAt};
ghost use Rattle.shapes.specs.Carried.{other_feature};
ghost use Rattle.shapes.specs.Shapes.{set_feature_shape};

use crate::lists::{count_in, item_in};
use lexemes::codes::{FALSE, SET_FEATURE, TRUE};
use lexemes::{SYMBOL, WEIGHTS, code_at};

// Whether a list has the shape of `set-feature`.
pub fn set_feature_shape(lexemes: &[u64], at: usize) -> bool
    requires { ListAt lexemes.now at }
    ensures { (here : ListAt lexemes.now at) → result ≡ set_feature_shape here.operands }
{
    if count_in(lexemes, at) != 3 {
        return false;
    }
    let feature = code_at(lexemes, item_in(lexemes, at, 1));
    let value = code_at(lexemes, item_in(lexemes, at, 2));
    (WEIGHTS <= feature) & (feature < SYMBOL) & ((value == TRUE) | (value == FALSE))
}

// Whether a list is `set-feature` with another feature, or with another value.
pub(crate) fn other_feature(lexemes: &[u64], at: usize) -> bool
    requires { ListAt lexemes.now at }
    ensures { (here : ListAt lexemes.now at) → result ≡ other_feature here.operands }
{
    if code_at(lexemes, at + 1) != SET_FEATURE {
        return false;
    }
    let carried = (code_at(lexemes, at + 2) == WEIGHTS) & (code_at(lexemes, at + 3) == TRUE);
    set_feature_shape(lexemes, at) & !carried
}
