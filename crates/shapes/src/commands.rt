//! Shapes of commands.
ghost use Rattle.std.specs.Prelude.{◌≡◌};
ghost use Rattle.lexemes.specs.code.Standing.{ListAt};
ghost use Rattle.shapes.specs.Shapes.{command_shape, define_fun_shape};

use crate::features::set_feature_shape;
use crate::forms::{
    constraint_shape, declare_var_shape, header_shape, set_logic_shape, synth_fun_shape,
};
use crate::lists::{count_in, item_in};
use crate::terms::term_shape;
use lexemes::code_at;
use lexemes::codes::{
    ASSUME, CHECK_SYNTH, CONSTRAINT, DECLARE_VAR, DEFINE_FUN, SET_FEATURE, SET_LOGIC, SYNTH_FUN,
};

// Whether a list has the shape of `define-fun`.
pub fn define_fun_shape(lexemes: &[u64], at: usize) -> bool
    requires { ListAt lexemes.now at }
    ensures { (here : ListAt lexemes.now at) → result ≡ define_fun_shape here.operands }
{
    if count_in(lexemes, at) != 5 {
        return false;
    }
    header_shape(lexemes, at) & term_shape(lexemes, item_in(lexemes, at, 4))
}

// Whether a list has the shape of the command that its first word names; an unknown command has none.
pub fn command_shape(lexemes: &[u64], at: usize) -> bool
    requires { ListAt lexemes.now at }
    ensures { (here : ListAt lexemes.now at) → result ≡ command_shape here.operands }
{
    let command = code_at(lexemes, at + 1);
    match command {
        SET_LOGIC => set_logic_shape(lexemes, at),
        DECLARE_VAR => declare_var_shape(lexemes, at),
        DEFINE_FUN => define_fun_shape(lexemes, at),
        SYNTH_FUN => synth_fun_shape(lexemes, at),
        CONSTRAINT | ASSUME => constraint_shape(lexemes, at),
        CHECK_SYNTH => count_in(lexemes, at) == 1,
        SET_FEATURE => set_feature_shape(lexemes, at),
        _ => false,
    }
}
