//! What is not carried: answer 6 of a command.
ghost use Rattle.std.specs.Prelude.{◌≡◌};
ghost use Rattle.lexemes.specs.code.Standing.{Between, ListAt};
ghost use Rattle.shapes.specs.Carried.{any_uncarried, no_grammar, is_not_carried, other_logic, uncarried_start};

use crate::features::other_feature;
use crate::forms::set_logic_shape;
use crate::lists::count_in;
use crate::whole_rules::command_uncarried;
use lexemes::codes::{
    BANG, BIT_VEC, BV, EXISTS, EXTRACT, FORALL, LET, OTHER, SET_FEATURE, SET_LOGIC, SYNTH_FUN,
    TRUE, UNDERSCORE,
};
use lexemes::{OPEN, code_at};

// Whether a list begins with a word that is not carried there.
pub(crate) fn uncarried_start(lexemes: &[u64], at: usize) -> bool
    requires { ListAt lexemes.now at }
    ensures { (here : ListAt lexemes.now at) → result ≡ uncarried_start here.operands }
{
    let first = code_at(lexemes, at + 1);
    let second = code_at(lexemes, at + 2);
    let binder = (first == LET) | (first == EXISTS) | (first == FORALL) | (first == BANG);
    binder
        | ((first == UNDERSCORE) & !((second == BIT_VEC) | (second == EXTRACT) | (second > OTHER)))
}

// Whether any list among the items from a word on to another, or within one, begins so.
pub fn any_uncarried(lexemes: &[u64], first: usize, end: usize) -> bool
    requires { Between lexemes.now first end }
    ensures { (b : Between lexemes.now first end) → result ≡ any_uncarried b.items }
{
    for at in first..end {
        if code_at(lexemes, at) == OPEN && uncarried_start(lexemes, at) {
            return true;
        }
    }
    false
}

// Whether a list is `set-logic` with another logic.
fn other_logic(lexemes: &[u64], at: usize) -> bool
    requires { ListAt lexemes.now at }
    ensures { (here : ListAt lexemes.now at) → result ≡ other_logic here.operands }
{
    if code_at(lexemes, at + 1) != SET_LOGIC {
        return false;
    }
    set_logic_shape(lexemes, at) & (code_at(lexemes, at + 2) != BV)
}

// Whether a list is a `synth-fun` without grammar.
fn no_grammar(lexemes: &[u64], at: usize) -> bool
    requires { ListAt lexemes.now at }
    ensures { (here : ListAt lexemes.now at) → result ≡ no_grammar here.operands }
{
    (code_at(lexemes, at + 1) == SYNTH_FUN) & (count_in(lexemes, at) == 4)
}

// Whether a list is a command that is not carried, or one in which something is not, with the feature or without.
pub fn not_carried(lexemes: &[u64], at: usize, weights: bool) -> bool
    requires { ListAt lexemes.now at }
    ensures { (here : ListAt lexemes.now at) → result ≡ is_not_carried weights here.operands }
{
    let command = code_at(lexemes, at + 1);
    if (command < SET_LOGIC) | (command >= TRUE) {
        return false;
    }
    let other = (command > SET_FEATURE) | other_feature(lexemes, at);
    if other | other_logic(lexemes, at) | no_grammar(lexemes, at) {
        return true;
    }
    command_uncarried(lexemes, at, weights)
}
