//! Rules that are no terms.
ghost use Rattle.std.specs.Prelude.{◌≡◌};
ghost use Rattle.lexemes.specs.code.Standing.{ItemAt};
ghost use Rattle.shapes.specs.Shapes.{is_pattern};

use lexemes::codes::{CONSTANT, VARIABLE};
use lexemes::{OPEN, code_at};

// Whether a rule is `(Constant σ)` or `(Variable σ)`.
pub fn is_pattern(lexemes: &[u64], at: usize) -> bool
    requires { ItemAt lexemes.now at }
    ensures { (here : ItemAt lexemes.now at) → result ≡ is_pattern here.label here.operands }
{
    let head = code_at(lexemes, at + 1);
    (code_at(lexemes, at) == OPEN) & ((head == CONSTANT) | (head == VARIABLE))
}
