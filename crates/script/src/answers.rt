//! The numbers of the answers, each once (those of words and of the runner are theirs), and the verdict that has one.
ghost use Rattle.std.specs.Prelude.{◌≡◌};

use crate::Verdict;

// Accepted; of a command or a text, that it passes.
pub const ACCEPTED: usize = 0;

// A text or the list of points is too long, or a lent area is not of its size.
pub const TOO_LONG: usize = words::answers::TOO_LONG as usize;

// Past a limit.
pub const PAST_LIMIT: usize = words::answers::PAST_LIMIT as usize;

// The shape is unknown.
pub const SHAPE: usize = 5;

// Not carried.
pub const NOT_CARRIED: usize = words::answers::NOT_CARRIED as usize;

// A name is unknown, taken or reserved.
pub const NAME: usize = 7;

// A sort fault.
pub const SORT: usize = 8;

// A grammar fault.
pub const GRAMMAR: usize = 9;

// The response is `fail`.
pub const FAIL: usize = 10;

// The response is `infeasible`.
pub const INFEASIBLE: usize = 11;

// A header of the response differs.
pub const HEADER: usize = 12;

// No derivation.
pub const NO_DERIVATION: usize = 13;

// A constraint is false.
pub const FALSE: usize = 14;

// The budget ended.
pub const BUDGET: usize = 15;

// The list of points is not whole points, or has a value outside its sort.
pub const POINTS: usize = 16;

// A lent area is not of its size, or too short.
pub const AREA_SIZE: usize = 17;

// The script lacks the function, or its body uses a `define-fun`.
pub const UNLISTED: usize = 18;

// A block of an evidence file is cut short, wrong, spare or wrongly filled.
pub const WRONG_BLOCK: usize = 21;

// A list of an evidence file does not derive its body, or an absent function has one.
pub const NOT_FOLLOWED: usize = 22;

// The verdict of a number at a word, with so many rows.
pub fn verdict(number: usize, place: usize, rows: usize) -> Verdict
    ensures { result ≡ record { number = number; place = place; rows = rows } }
{
    Verdict {
        number,
        place,
        rows,
    }
}
