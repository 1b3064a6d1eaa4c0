//! The column `next` of the word table, from the last word to the first.
ghost use Rattle.std.specs.Prelude.{◌≡◌, ◌+◌};
ghost use Rattle.words.specs.code.Links.{Closing, Linked, Linking, Next};

use crate::table::{CLOSE, OPEN, ROW, kind_at, next_at};

// The index past the bracket that closes the list in which word `at` stands.
fn close_of(table: &[u32], count: usize, at: usize) -> usize
    requires { Linking table.now count at }
    ensures { Closing table.now count at result }
{
    let mut i = at;
    while i < count {
        if kind_at(table, i) == CLOSE {
            return i + 1;
        }
        i = next_at(table, i);
    }
    i
}

// The index past a word, or past the list that it begins.
fn next_of(table: &[u32], count: usize, word: usize) -> usize
    requires { Linking table.now count (word + 1) }
    ensures { Next table.now count word result }
{
    if kind_at(table, word) == OPEN {
        return close_of(table, count, word + 1);
    }
    word + 1
}

// Fills the column `next` of the first `count` words.
pub fn link(table: &mut [u32], count: usize)
    requires { Linking table.old count count }
    ensures { Linked table.old count table.new }
{
    for i in (0..count).rev() {
        let next = next_of(table, count, i);
        table[ROW * i + 4] = next as u32;
    }
}
