//! The first word of a header that differs from the declared one.
ghost use Rattle.std.specs.Prelude.{◌≡◌, ◌<◌};
ghost use Rattle.forest.specs.Forest.{none, tree};
ghost use Rattle.forest.specs.Lists.{same_bytes};
ghost use Rattle.names.specs.code.Lookup.{Names, bytes_at};
ghost use Rattle.names.specs.code.Table.{name_in, row_count};
ghost use Rattle.written_sorts.specs.code.Places.{SortAt};
ghost use Rattle.headers.specs.code.Compare.{Compared, Differs, Held, PairAt, PairHeld, PairsAt, PairsHeld};
ghost use Rattle.headers.specs.Tokens.{sort_tokens, words_in};

use forest::limits;
use lexemes::codes::BOOL;
use lexemes::{OPEN, code_at, next_at, value_at};
use names::spelled::bytes_at;
use names::table::{FUNCTIONS, OWN_ARGUMENTS, find_name, sort_in};

// Whether a word is the name in a row.
fn is_named(text: &[u8], lexemes: &[u64], names: &[u8], word: usize, row: usize) -> bool
    requires names { Names names.now }
    requires row_lt_row_count { row < row_count }
    ensures { result ≡ same_bytes (name_in names.now row) (bytes_at text.now lexemes.now word) }
{
    find_name(names, row, 1, bytes_at(text, lexemes, word)) == 0
}

// The first word of the sort at a word that differs from those of a declared sort.
fn sort_differs(lexemes: &[u64], at: usize, sort: u64) -> Option<usize>
    requires { SortAt lexemes.now at }
    ensures { (p : SortAt lexemes.now at) → Held (words_in (tree p.here.label p.here.operands none)) (sort_tokens sort) result }
{
    let code = code_at(lexemes, at);
    if sort == 0 {
        return if code == BOOL { None } else { Some(at) };
    }
    if code != OPEN {
        return Some(at);
    }
    if value_at(lexemes, at + 3) == sort {
        None
    } else {
        Some(at + 3)
    }
}

// The first word of the pair at a word that differs from those of the argument in a row.
fn pair_differs(text: &[u8], lexemes: &[u64], names: &[u8], at: usize, row: usize) -> Option<usize>
    requires { PairAt text.now lexemes.now names.now at row }
    ensures { (p : PairAt text.now lexemes.now names.now at row) → PairHeld p result }
{
    if !is_named(text, lexemes, names, at + 1, row) {
        return Some(at + 1);
    }
    sort_differs(lexemes, at + 2, sort_in(names, row))
}

// The first word of the pairs from a word to the bracket that closes their list, or that bracket, that differs from those of so many arguments from a row on.
fn pairs_differ(
    text: &[u8],
    lexemes: &[u64],
    names: &[u8],
    first: usize,
    close: usize,
    row: usize,
    arguments: usize,
) -> Option<usize>
    requires { PairsAt text.now lexemes.now names.now first close row arguments }
    ensures { (p : PairsAt text.now lexemes.now names.now first close row arguments) → PairsHeld p result }
{
    let mut at = first;
    for argument in row..row + arguments {
        if at >= close {
            return Some(close);
        }
        let found = pair_differs(text, lexemes, names, at, argument);
        if found.is_some() {
            return found;
        }
        at = next_at(lexemes, at);
    }
    if at < close { Some(at) } else { None }
}

// The first word of the name, arguments and sort of the `define-fun` at a word that differs from those of a synthesized function; `nowhere` where none does.
pub fn header_differs(
    text: &[u8],
    lexemes: &[u64],
    names: &[u8],
    at: usize,
    function: usize,
    arguments: usize,
    res: u64,
    nowhere: usize,
) -> usize
    requires { Compared text.now lexemes.now names.now at function arguments res }
    ensures { (p : Compared text.now lexemes.now names.now at function arguments res) → Differs p nowhere result }
{
    if !is_named(text, lexemes, names, at + 2, FUNCTIONS + function) {
        return at + 2;
    }
    let list = next_at(lexemes, at + 2);
    let sort = next_at(lexemes, list);
    let row = OWN_ARGUMENTS + limits::ARGUMENTS * function;
    match pairs_differ(text, lexemes, names, list + 1, sort - 1, row, arguments) {
        Some(within) => within,
        None => sort_differs(lexemes, sort, res).unwrap_or(nowhere),
    }
}
