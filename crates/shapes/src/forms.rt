//! Shapes of commands that are reached by their word alone, and of what `define-fun` and `synth-fun` share.
ghost use Rattle.std.specs.Prelude.{◌≡◌};
ghost use Rattle.lexemes.specs.code.Standing.{ListAt};
ghost use Rattle.shapes.specs.Shapes.{constraint_shape, declare_var_shape, header_shape, set_logic_shape, synth_fun_shape};
ghost use Rattle.shapes.specs.code.Lists.{Long};

use crate::grammars::groups_shape;
use crate::lists::{count_in, item_in, symbol_in};
use crate::sorts::{pairs_shape, sort_shape};
use crate::terms::term_shape;

// Whether the second to fourth items of a list that has so many are a function's name, arguments and sort.
pub fn header_shape(lexemes: &[u64], at: usize) -> bool
    requires { Long lexemes.now at 4 }
    ensures { (here : ListAt lexemes.now at) → result ≡ header_shape here.operands }
{
    symbol_in(lexemes, at, 1)
        & pairs_shape(lexemes, item_in(lexemes, at, 2))
        & sort_shape(lexemes, item_in(lexemes, at, 3))
}

// Whether a list has the shape of `set-logic`.
pub fn set_logic_shape(lexemes: &[u64], at: usize) -> bool
    requires { ListAt lexemes.now at }
    ensures { (here : ListAt lexemes.now at) → result ≡ set_logic_shape here.operands }
{
    if count_in(lexemes, at) != 2 {
        return false;
    }
    symbol_in(lexemes, at, 1)
}

// Whether a list has the shape of `declare-var`.
pub fn declare_var_shape(lexemes: &[u64], at: usize) -> bool
    requires { ListAt lexemes.now at }
    ensures { (here : ListAt lexemes.now at) → result ≡ declare_var_shape here.operands }
{
    if count_in(lexemes, at) != 3 {
        return false;
    }
    symbol_in(lexemes, at, 1) & sort_shape(lexemes, item_in(lexemes, at, 2))
}

// Whether a list has the shape of `synth-fun` with a grammar.
pub fn synth_fun_shape(lexemes: &[u64], at: usize) -> bool
    requires { ListAt lexemes.now at }
    ensures { (here : ListAt lexemes.now at) → result ≡ synth_fun_shape here.operands }
{
    if count_in(lexemes, at) != 6 {
        return false;
    }
    header_shape(lexemes, at)
        & pairs_shape(lexemes, item_in(lexemes, at, 4))
        & groups_shape(lexemes, item_in(lexemes, at, 5))
}

// Whether a list has the shape of `constraint` and `assume`.
pub fn constraint_shape(lexemes: &[u64], at: usize) -> bool
    requires { ListAt lexemes.now at }
    ensures { (here : ListAt lexemes.now at) → result ≡ constraint_shape here.operands }
{
    if count_in(lexemes, at) != 2 {
        return false;
    }
    term_shape(lexemes, item_in(lexemes, at, 1))
}
