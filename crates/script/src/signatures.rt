//! Rows of the table of signatures, written from the table of names.
ghost use Rattle.script.specs.code.Signatures.{Listed, Listing, SignedIn, Signing};

use forest::limits;
use forest::limits::{ARGUMENTS, DEFINED, FUNCTIONS};
use names::table::{NON_TERMINALS, sort_in};

// How many numbers a row has.
pub const ROW: usize = 2 + ARGUMENTS;

// The row of the first synthesized function, behind those of `define-fun`s; of the first non-terminal, behind these; and how many rows there are.
pub const FUNCTION_ROW: usize = DEFINED;

const NON_TERMINAL_ROW: usize = FUNCTION_ROW + FUNCTIONS;

pub const ROWS: usize = NON_TERMINAL_ROW + limits::NON_TERMINALS;

// Writes the row of a function whose arguments stand in the rows of the table of names from `first` on.
pub fn put_signature(
    names: &[u8],
    places: &mut [u64],
    row: usize,
    first: usize,
    arguments: usize,
    res: u64,
)
    requires { Signing names.now places.old row first arguments res }
    ensures { SignedIn names.now places.old row first arguments res places.new }
{
    let at = ROW * row;
    places[at] = arguments as u64;
    places[at + 1] = res;
    for k in 0..arguments {
        places[at + 2 + k] = sort_in(names, first + k);
    }
}

// Writes the rows of the non-terminals, `listed` of them.
pub fn put_sorts(names: &[u8], places: &mut [u64], listed: usize)
    requires { Listing names.now places.old listed }
    ensures { Listed names.now places.old listed places.new }
{
    for k in 0..listed {
        let sort = sort_in(names, NON_TERMINALS + k);
        put_signature(names, places, NON_TERMINAL_ROW + k, 0, 0, sort);
    }
}
