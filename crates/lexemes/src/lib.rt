//! The table of lexemes: six numbers for each word, its code, the word past it or past the list that it begins, its value, where it starts and ends in its
//! text, and its width. A word past the end of a table has zeros.
#![tactic(auto)]

pub mod codes;
pub mod items;
pub mod numbering;
pub mod reserved;

ghost use Rattle.std.specs.Prelude.{◌≡◌};
ghost use Rattle.lexemes.specs.code.Table.{code_at, end_at, next_at, start_at, value_at, width_at};

use forest::numbers::number_at;

// How many numbers a row has.
pub const ROW: usize = 6;

// The codes of words; those of keywords stand before SYMBOL, and a symbol's is SYMBOL and its number among the words that the reader tells apart.
pub const OPEN: u64 = 1;

pub const CLOSE: u64 = 2;

pub const NUMERAL: u64 = 3;

pub const LITERAL: u64 = 4;

pub const WEIGHTS: u64 = 5;

pub const WEIGHT: u64 = 6;

pub const OTHER_KEYWORD: u64 = 7;

pub const SYMBOL: u64 = 8;

// The code of a word.
pub fn code_at(lexemes: &[u64], word: usize) -> u64
    ensures { result ≡ code_at lexemes.now word }
{
    number_at(lexemes, ROW, word, 0)
}

// The word past a word, or past the list that it begins.
pub fn next_at(lexemes: &[u64], word: usize) -> usize
    ensures { result ≡ next_at lexemes.now word }
{
    number_at(lexemes, ROW, word, 1) as usize
}

// The value of a numeral or a literal, 0 of another word.
pub fn value_at(lexemes: &[u64], word: usize) -> u64
    ensures { result ≡ value_at lexemes.now word }
{
    number_at(lexemes, ROW, word, 2)
}

// Where a word starts in its text.
pub fn start_at(lexemes: &[u64], word: usize) -> usize
    ensures { result ≡ start_at lexemes.now word }
{
    number_at(lexemes, ROW, word, 3) as usize
}

// Where a word ends in its text.
pub fn end_at(lexemes: &[u64], word: usize) -> usize
    ensures { result ≡ end_at lexemes.now word }
{
    number_at(lexemes, ROW, word, 4) as usize
}

// The width of a literal, 0 of another word.
pub fn width_at(lexemes: &[u64], word: usize) -> u64
    ensures { result ≡ width_at lexemes.now word }
{
    number_at(lexemes, ROW, word, 5)
}
