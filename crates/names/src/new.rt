//! New names, each tested against those in scope.
ghost use Rattle.std.specs.Prelude.{◌≡◌, ◌+◌, ◌≤◌};
ghost use Rattle.names.specs.Scopes.{is_named};
ghost use Rattle.names.specs.code.Lookup.{Names};
ghost use Rattle.names.specs.code.Table.{names_from, row_count};
ghost use Rattle.names.specs.code.New.{Few, NameTested, NamesPairs, NewName, NewPairs, PairAt, PairPut, names_in};

use crate::Scope;
use crate::spelled::bytes_at;
use crate::table::{DEFINED, FUNCTIONS, VARIABLES, find_name, put_name};
use forest::numbers::least;
use lexemes::codes::{OTHER, SET_LOGIC};
use lexemes::{code_at, next_at};
use written_sorts::places::sort_of;

// Whether a word is one of the names in so many rows from a row on.
fn is_named(names: &[u8], first: usize, count: usize, word: &[u8]) -> bool
    requires names { Names names.now }
    requires count_bound { first + count ≤ row_count }
    ensures { result ≡ is_named (names_from names.now first count) word.now }
{
    find_name(names, first, count, word) < count
}

// Whether a word is one of the names in scope.
fn is_in_scope(names: &[u8], scope: Scope, word: &[u8]) -> bool
    requires names { Names names.now }
    requires few { Few scope }
    ensures { result ≡ is_named (names_in names.now scope) word.now }
{
    is_named(names, scope.first, scope.arguments, word)
        | is_named(names, VARIABLES, scope.variables, word)
        | is_named(names, DEFINED, scope.defined, word)
        | is_named(names, FUNCTIONS, scope.functions, word)
}

// The word of a new name where it is reserved or taken, by a name in scope or one of the `count` from a row on; `nowhere` where it is not.
pub fn new_name(
    text: &[u8],
    lexemes: &[u64],
    names: &[u8],
    scope: Scope,
    row: usize,
    count: usize,
    word: usize,
    nowhere: usize,
) -> usize
    requires { NewName text.now lexemes.now names.now scope row count word }
    ensures { (p : NewName text.now lexemes.now names.now scope row count word) → NameTested p nowhere result }
{
    let code = code_at(lexemes, word);
    let bytes = bytes_at(text, lexemes, word);
    let reserved = (code >= SET_LOGIC) & (code < OTHER);
    let taken = is_named(names, row, count, bytes) | is_in_scope(names, scope, bytes);
    if reserved | taken {
        return word;
    }
    nowhere
}

// Puts the name of the pair at a word, its word and its sort into a row.
fn put_pair(text: &[u8], lexemes: &[u64], names: &mut [u8], row: usize, at: usize)
    requires { PairAt text.now lexemes.now names.old row at }
    ensures { (p : PairAt text.now lexemes.now names.old row at) → PairPut p names.new }
{
    let sort = sort_of(lexemes, at + 2) as u8;
    put_name(names, row, sort, at + 1, bytes_at(text, lexemes, at + 1));
}

// Puts the names and sorts of the pairs from a word to the bracket that closes their list into the rows from `row` on; returns the least word whose name is
// reserved or taken.
pub fn new_pairs(
    text: &[u8],
    lexemes: &[u64],
    names: &mut [u8],
    scope: Scope,
    row: usize,
    first: usize,
    close: usize,
    nowhere: usize,
) -> usize
    requires { NewPairs text.now lexemes.now names.old scope row first close }
    ensures { NamesPairs text.now lexemes.now names.old scope row first close nowhere names.new result }
{
    let mut place = nowhere;
    let mut at = first;
    let mut done = 0;
    while at < close {
        let tested = new_name(text, lexemes, names, scope, row, done, at + 1, nowhere);
        place = least(place, tested);
        put_pair(text, lexemes, names, row + done, at);
        done += 1;
        at = next_at(lexemes, at);
    }
    place
}
