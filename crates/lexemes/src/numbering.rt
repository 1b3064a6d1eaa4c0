//! The table of lexemes of a text, filled from its word table.
ghost use Rattle.std.specs.Prelude.{◌≡◌};
ghost use Rattle.forest.specs.Tables.{over};
ghost use Rattle.lexemes.specs.code.Numbering.{Numbering, RowPut, RowRoom, code_by};
ghost use Rattle.lexemes.specs.code.Reserved.{KnownTables};
ghost use Rattle.lexemes.specs.code.Table.{keyword_code, lexeme_table};
ghost use Rattle.words.specs.Words.{words_of};

use crate::reserved::{WordTable, first_names, first_slots, first_starts, word_number};
use crate::{OTHER_KEYWORD, ROW, SYMBOL, WEIGHT, WEIGHTS};
use forest::search::same_bytes;
use operators::operators::{operator_names, operator_slots, operator_starts};
use words::table::{KEYWORD, end_at, kind_at, next_at, start_at, width_at};

// The number of a keyword's kind.
const KEYWORD_KIND: u64 = KEYWORD as u64;

// The code of a keyword.
fn keyword_code(word: &[u8]) -> u64
    ensures { result ≡ keyword_code word.now }
{
    if same_bytes(b":weights", word) {
        return WEIGHTS;
    }
    if same_bytes(b":weight", word) {
        return WEIGHT;
    }
    OTHER_KEYWORD
}

// The code of a word by the number of its kind and its bytes.
fn code_of(kind: u64, word: &[u8], first: WordTable, operators: WordTable) -> u64
    requires { KnownTables first operators }
    ensures { result ≡ code_by kind word.now }
{
    if kind < WEIGHTS {
        return kind;
    }
    if kind == KEYWORD_KIND {
        return keyword_code(word);
    }
    let number = word_number(word, first, operators);
    SYMBOL + number as u64
}

// Puts the row of a word that has a code into the table of lexemes.
fn put_row(words: &[u32], values: &[u64], word: usize, code: u64, lexemes: &mut [u64])
    requires { RowRoom values.now lexemes.old word }
    ensures { RowPut words.now values.now word code lexemes.old lexemes.new }
{
    let at = ROW * word;
    lexemes[at] = code;
    lexemes[at + 1] = next_at(words, word) as u64;
    lexemes[at + 2] = values[word];
    lexemes[at + 3] = start_at(words, word) as u64;
    lexemes[at + 4] = end_at(words, word) as u64;
    lexemes[at + 5] = width_at(words, word) as u64;
}

// Fills the table of lexemes of a text from its word table and its values; the tables of known words are made once.
pub fn number_words(text: &[u8], words: &[u32], values: &[u64], count: usize, lexemes: &mut [u64])
    requires { Numbering text.now words.now values.now lexemes.old count }
    ensures { lexemes.new ≡ over (lexeme_table text.now (words_of text.now)) lexemes.old }
{
    let names = first_names();
    let starts = first_starts();
    let slots = first_slots();
    let first = WordTable {
        names: &names,
        starts: &starts,
        slots: &slots,
    };
    let names_of_operators = operator_names();
    let starts_of_operators = operator_starts();
    let slots_of_operators = operator_slots();
    let operators = WordTable {
        names: &names_of_operators,
        starts: &starts_of_operators,
        slots: &slots_of_operators,
    };
    for word in 0..count {
        let start = start_at(words, word);
        let end = end_at(words, word);
        let code = code_of(
            kind_at(words, word) as u64,
            &text[start..end],
            first,
            operators,
        );
        put_row(words, values, word, code, lexemes);
    }
}
