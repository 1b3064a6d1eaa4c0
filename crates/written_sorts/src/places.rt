//! The sort that an item says, and the word at fault in it.
ghost use Rattle.std.specs.Prelude.{cond, ◌≡◌};
ghost use Rattle.shapes.specs.Shapes.{pair_shape};
ghost use Rattle.written_sorts.specs.code.Places.{AllBetween, SortAt};
ghost use Rattle.written_sorts.specs.Written.{least_in, pair_place, sort_of, sort_place};

use crate::Fault;
use forest::numbers::least;
use lexemes::codes::BOOL;
use lexemes::{OPEN, SYMBOL, code_at, next_at, value_at};
use operators::rules::MAX_WIDTH;

// The word where a test passes, else `nowhere`.
fn word_if(test: bool, word: usize, nowhere: usize) -> usize
    ensures { result ≡ cond test word nowhere }
{
    if test { word } else { nowhere }
}

// The sort that the item at a word says: 0 for Bool, else the width.
pub fn sort_of(lexemes: &[u64], at: usize) -> u64
    requires { SortAt lexemes.now at }
    ensures { (p : SortAt lexemes.now at) → result ≡ sort_of p.here.label p.here.operands }
{
    if code_at(lexemes, at) == OPEN {
        return value_at(lexemes, at + 3);
    }
    0
}

// The word at fault in the sort at a word; `nowhere` where there is none.
pub fn sort_place(lexemes: &[u64], at: usize, fault: Fault, nowhere: usize) -> usize
    requires { SortAt lexemes.now at }
    ensures { (p : SortAt lexemes.now at) → result ≡ sort_place fault nowhere p.here.label p.here.operands }
{
    let code = code_at(lexemes, at);
    let width = value_at(lexemes, at + 3);
    match fault {
        Fault::TooWide => word_if((code == OPEN) & (width > MAX_WIDTH), at + 3, nowhere),
        Fault::Unknown => word_if((code >= SYMBOL) & (code != BOOL), at, nowhere),
        Fault::Empty => word_if((code == OPEN) & (width == 0), at, nowhere),
    }
}

// The least word at fault in the sorts of the pairs from a word to the bracket that closes their list.
pub fn pairs_place(
    lexemes: &[u64],
    first: usize,
    close: usize,
    fault: Fault,
    nowhere: usize,
) -> usize
    requires { AllBetween pair_shape lexemes.now first close }
    ensures { (p : AllBetween pair_shape lexemes.now first close) → result ≡ least_in nowhere (pair_place fault nowhere) p.between.items }
{
    let mut place = nowhere;
    let mut at = first;
    while at < close {
        place = least(place, sort_place(lexemes, at + 2, fault, nowhere));
        at = next_at(lexemes, at);
    }
    place
}
