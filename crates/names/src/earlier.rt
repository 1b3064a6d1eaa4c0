//! Where a name that is taken was declared.
ghost use Rattle.std.specs.Prelude.{◌≡◌, ◌+◌, ◌<◌, ◌≤◌, max};
ghost use Rattle.names.specs.Earlier.{earlier, last_before};
ghost use Rattle.names.specs.code.Lookup.{Names};
ghost use Rattle.names.specs.code.Table.{declared_from, row_count};
ghost use Rattle.names.specs.code.Earlier.{Listing, all_rows, before_in, new_row, new_rows, row_for};

use crate::Scope;
use crate::table::{DEFINED, FUNCTIONS, NON_TERMINALS, VARIABLES, is_name, name_in, word_in};

// The row of the name that is declared at a word, among so many rows from a row on.
fn find_row(names: &[u8], first: usize, count: usize, word: usize) -> Option<usize>
    requires names { Names names.now }
    requires count_bound { first + count ≤ row_count }
    ensures { result ≡ row_for names.now first count word }
{
    for row in first..first + count {
        if word_in(names, row) == word {
            return Some(row);
        }
    }
    None
}

// The row of the new name that is declared at a word.
fn new_row(names: &[u8], scope: Scope, own: usize, listed: usize, word: usize) -> Option<usize>
    requires { Listing names.now scope own listed }
    ensures { result ≡ new_row names.now scope own listed word }
{
    find_row(names, own, 1, word)
        .or_else(|| find_row(names, scope.first, scope.arguments, word))
        .or_else(|| find_row(names, NON_TERMINALS, listed, word))
}

// The greater of a place and the word at which the name in a row is declared, where that is before a word and the name is spelt so.
fn later_of(names: &[u8], row: usize, name: &[u8], word: usize, place: usize) -> usize
    requires names { Names names.now }
    requires row_lt_row_count { row < row_count }
    ensures { result ≡ max place (before_in names.now row name.now word) }
{
    let at = word_in(names, row);
    if is_name(names, row, name) & (at < word) & (place < at) {
        return at;
    }
    place
}

// The greater of a place and the last place before a word at which a name is declared, among so many rows from a row on.
fn last_of(
    names: &[u8],
    first: usize,
    count: usize,
    name: &[u8],
    word: usize,
    place: usize,
) -> usize
    requires names { Names names.now }
    requires count_bound { first + count ≤ row_count }
    ensures { result ≡ max place (last_before (declared_from names.now first count) word name.now) }
{
    let mut last = place;
    for row in first..first + count {
        last = later_of(names, row, name, word, last);
    }
    last
}

// The last place before a word at which a name is declared, among all names; 0 where there is none.
fn last_of_all(
    names: &[u8],
    scope: Scope,
    own: usize,
    listed: usize,
    name: &[u8],
    word: usize,
) -> usize
    requires { Listing names.now scope own listed }
    ensures { result ≡ last_before (all_rows names.now scope own listed) word name.now }
{
    let variable = last_of(names, VARIABLES, scope.variables, name, word, 0);
    let defined = last_of(names, DEFINED, scope.defined, name, word, variable);
    let function = last_of(names, FUNCTIONS, scope.functions, name, word, defined);
    let itself = last_of(names, own, 1, name, word, function);
    let argument = last_of(names, scope.first, scope.arguments, name, word, itself);
    last_of(names, NON_TERMINALS, listed, name, word, argument)
}

// The word at which a name that is taken was declared before, by the word of the new name: one of a command whose own name stands in row `own`, and which lists
// so many non-terminals; 0 where no new name stands at the word, or its name was not declared before.
pub fn earlier_place(names: &[u8], scope: Scope, own: usize, listed: usize, word: usize) -> usize
    requires { Listing names.now scope own listed }
    ensures { result ≡ earlier (all_rows names.now scope own listed) (new_rows names.now scope own listed) word }
{
    match new_row(names, scope, own, listed, word) {
        Some(row) => last_of_all(names, scope, own, listed, name_in(names, row), word),
        None => 0,
    }
}
