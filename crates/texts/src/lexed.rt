//! The words and lexemes of one text, and the offsets of its words.
ghost use Rattle.std.specs.Prelude.{◌≡◌};
ghost use Rattle.script.specs.Outcome.{offset_of};
ghost use Rattle.texts.specs.code.Texts.{Placed};
ghost use Rattle.texts.specs.code.Lexed.{Lexed, Rooms};

use lexemes::numbering::number_words;
use lexemes::start_at;
use words::answers::{number_of, passed_of};
use words::{Limits, Reading, read_words};

// Reads the words of a text into tables that have room for them and, where none is refused, fills the table of its lexemes.
pub fn lexemes_in(
    text: &[u8],
    limits: Limits,
    words: &mut [u32],
    values: &mut [u64],
    lexemes: &mut [u64],
) -> Reading
    requires { Rooms limits text.now words.old values.old lexemes.old }
    ensures { Lexed limits text.now lexemes.new result }
{
    let reading = read_words(text, limits, words, values);
    if number_of(reading) == 0 {
        number_words(text, words, values, passed_of(reading), lexemes);
    }
    reading
}

// The offset of a word of a text; the text's length where it has not so many words.
pub fn offset_of(text: &[u8], lexemes: &[u64], count: usize, word: usize) -> usize
    requires { Placed text.now lexemes.now count }
    ensures { result ≡ offset_of text.now word }
{
    if word < count {
        start_at(lexemes, word)
    } else {
        text.len()
    }
}
