//! The words and lexemes of a text, in tables that fit it.
ghost use Rattle.std.specs.Prelude.{◌≡◌, length, ◌≤◌, min};
ghost use Rattle.forest.specs.Limits.{script_words};
ghost use Rattle.lexemes.specs.code.Table.{row_width};
ghost use Rattle.texts.specs.code.Texts.{RowEach, word_rows};
ghost use Rattle.texts.specs.code.Lexed.{Lexed, Room};

use crate::lexed::lexemes_in;
use crate::{MIDDLE_SCRIPT, SHORT_RESPONSE, SHORT_SCRIPT};
use forest::limits::SCRIPT_WORDS;
use words::{Limits, Reading, table};

// Reads the words of a text, of which there are at most `N`, and, where none is refused, fills the table of its lexemes.
#[inline(never)]
fn lexemes_of<const N: usize>(text: &[u8], limits: Limits, lexemes: &mut [u64]) -> Reading
    requires few_rows { N ≤ script_words }
    requires few { min (length text.now) limits.words ≤ N }
    requires rows { N ≡ word_rows (min (length text.now) limits.words) }
    requires row_each { RowEach limits text.now row_width lexemes.old }
    ensures { Lexed limits text.now lexemes.new result }
{
    let mut words = [[0; table::ROW]; N];
    let mut values = [0; N];
    lexemes_in(text, limits, words.as_flattened_mut(), &mut values, lexemes)
}

// Reads the words of a text and, where none is refused, fills the table of its lexemes.
pub fn read_lexemes(text: &[u8], limits: Limits, lexemes: &mut [u64]) -> Reading
    requires { Room script_words limits text.now lexemes.old }
    ensures { Lexed limits text.now lexemes.new result }
{
    let most = text.len().min(limits.words as usize);
    if most <= SHORT_RESPONSE {
        return lexemes_of::<SHORT_RESPONSE>(text, limits, lexemes);
    }
    if most <= SHORT_SCRIPT {
        return lexemes_of::<SHORT_SCRIPT>(text, limits, lexemes);
    }
    if most <= MIDDLE_SCRIPT {
        return lexemes_of::<MIDDLE_SCRIPT>(text, limits, lexemes);
    }
    lexemes_of::<SCRIPT_WORDS>(text, limits, lexemes)
}
