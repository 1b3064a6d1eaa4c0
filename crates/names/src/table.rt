//! The table of names: 68 bytes for each, its sort, the word at which it is declared in two bytes, the low one first, its length, and its bytes with zeros behind
//! them.
ghost use Rattle.std.specs.Prelude.{◌≡◌, ◌+◌, ◌*◌, ◌<◌, ◌≤◌, length};
ghost use Rattle.std.proofs.lemmas.List.Edits.{sets};
ghost use Rattle.forest.specs.Lists.{same_bytes};
ghost use Rattle.forest.specs.Search.{place_in};
ghost use Rattle.names.specs.code.Lookup.{Names};
ghost use Rattle.names.specs.code.Table.{longest, name_in, name_row, names_from, row_count, row_width, sort_in, word_in, words_told};

use forest::limits;
use forest::search::same_bytes;
use word_kinds::kinds::SYMBOL_BYTES;

// How many bytes a row has.
pub const ROW: usize = 4 + SYMBOL_BYTES;

// The rows of the first variable, `define-fun`, synthesized function, argument of a `define-fun` and non-terminal; the row of the first argument of the first
// synthesized function, with a row for each argument that it may have; and how many rows there are.
pub const VARIABLES: usize = 0;

pub const DEFINED: usize = VARIABLES + limits::VARIABLES;

pub const FUNCTIONS: usize = DEFINED + limits::DEFINED;

pub const ARGUMENTS: usize = FUNCTIONS + limits::FUNCTIONS;

pub const NON_TERMINALS: usize = ARGUMENTS + limits::ARGUMENTS;

pub const OWN_ARGUMENTS: usize = NON_TERMINALS + limits::NON_TERMINALS;

pub const ROWS: usize = OWN_ARGUMENTS + limits::ARGUMENTS * limits::FUNCTIONS;

// The sort in a row.
pub fn sort_in(names: &[u8], row: usize) -> u64
    requires names { Names names.now }
    requires row_lt_row_count { row < row_count }
    ensures { result ≡ sort_in names.now row }
{
    names[ROW * row] as u64
}

// The word at which the name in a row is declared.
pub(crate) fn word_in(names: &[u8], row: usize) -> usize
    requires names { Names names.now }
    requires row_lt_row_count { row < row_count }
    ensures { result ≡ word_in names.now row }
{
    let at = ROW * row;
    names[at + 1] as usize + 256 * names[at + 2] as usize
}

// The name in a row.
pub(crate) fn name_in<'a>(names: &'a [u8], row: usize) -> &'a [u8]
    requires names { Names names.now }
    requires row_lt_row_count { row < row_count }
    ensures { result.now ≡ name_in names.now row }
{
    let at = ROW * row;
    let start = at + 4;
    let end = start + names[at + 3] as usize;
    &names[start..end]
}

// Whether the name in a row is the word.
pub(crate) fn is_name(names: &[u8], row: usize, word: &[u8]) -> bool
    requires names { Names names.now }
    requires row_lt_row_count { row < row_count }
    ensures { result ≡ same_bytes (name_in names.now row) word.now }
{
    same_bytes(name_in(names, row), word)
}

// The place of the word among the names in so many rows from a row on; past the last of them where it is none of them.
pub fn find_name(names: &[u8], first: usize, count: usize, word: &[u8]) -> usize
    requires names { Names names.now }
    requires count_bound { first + count ≤ row_count }
    ensures { result ≡ place_in (names_from names.now first count) 0 word.now }
{
    for place in 0..count {
        if is_name(names, first + place, word) {
            return place;
        }
    }
    count
}

// Writes a name, its sort and the word at which it is declared into a row.
pub fn put_name(names: &mut [u8], row: usize, sort: u8, place: usize, word: &[u8])
    requires names { Names names.old }
    requires row_lt_row_count { row < row_count }
    requires place_lt_words_told { place < words_told }
    requires word_len_bound { length word.now ≤ longest }
    ensures { names.new ≡ sets names.old (row_width * row) (name_row sort place word.now) }
{
    let at = ROW * row;
    names[at] = sort;
    names[at + 1] = (place % 256) as u8;
    names[at + 2] = (place / 256) as u8;
    names[at + 3] = word.len() as u8;
    for k in 0..SYMBOL_BYTES {
        names[at + 4 + k] = if k < word.len() { word[k] } else { 0 };
    }
}
