//! The reader of words: from the bytes of a text to its words, or to the refusal at the least offset.
//! What the reader of words takes and gives: the limits of a text, what is found in it, and the word table.
//! The words of a text: where they start and end, what is wrong with them, and the rows of the word table.
#![tactic(auto)]

pub mod answers;
pub mod links;
pub mod positions;
mod rows;
pub mod scan;
pub mod spans;
pub mod table;

ghost use Rattle.std.specs.Prelude.{◌≡◌, length};
ghost use Rattle.words.specs.Limits.{response_limits, script_limits};
ghost use Rattle.words.specs.Positions.{Positioned};
ghost use Rattle.words.specs.Reading.{ReadWords, WordsForC, room_for};
ghost use Rattle.words.specs.Words.{enquired};

use crate::answers::{number_of, passed_of, place_of};
use crate::links::link;
use crate::positions::position;
use crate::scan::scan_text;
use crate::spans::{first_start, word_end};
use crate::table::ROW;
use forest::limits::{NESTING, RESPONSE_BYTES, RESPONSE_WORDS, SCRIPT_BYTES, SCRIPT_WORDS};
use word_kinds::Fault;

// What a text may hold at the most: its bytes, its words with brackets counted, and how many lists may stand within one another.
#[derive(Clone, Copy)]
pub struct Limits {
    pub bytes: u32,
    pub words: u32,
    pub nesting: u32,
}

// Why a text is refused, the place, and how many words were passed before it.
#[derive(Clone, Copy)]
pub struct Refusal {
    pub fault: Fault,
    pub place: usize,
    pub passed: usize,
}

// What reading a text finds: how many words there are, or the refusal.
pub type Reading = Result<usize, Refusal>;

// Where a place of a text stands: its line and its column, both from 1.
#[derive(Clone, Copy)]
pub struct Position {
    pub line: usize,
    pub column: usize,
}

// The limits of a script.
pub fn script_limits() -> Limits
    ensures { result ≡ script_limits }
{
    Limits {
        bytes: SCRIPT_BYTES as u32,
        words: SCRIPT_WORDS as u32,
        nesting: NESTING as u32,
    }
}

// The limits of a response.
pub fn response_limits() -> Limits
    ensures { result ≡ response_limits }
{
    Limits {
        bytes: RESPONSE_BYTES as u32,
        words: RESPONSE_WORDS as u32,
        nesting: NESTING as u32,
    }
}

// The limits of a caller who lends so many rows and values.
fn room_for(limits: Limits, rows: usize, values: usize) -> Limits
    ensures { result ≡ room_for limits rows values }
{
    let words = (limits.words as usize).min(rows.min(values));
    Limits {
        bytes: limits.bytes,
        words: words as u32,
        nesting: limits.nesting,
    }
}

// Reads the words of a text into a lent table, five numbers a word, and their values into a lent list; where these have room for fewer words than the
// limit, that is the limit.
pub fn read_words(text: &[u8], limits: Limits, table: &mut [u32], values: &mut [u64]) -> Reading
    ensures { ReadWords limits text.now table.old values.old result table.new values.new }
{
    if text.len() > limits.bytes as usize {
        return Err(Refusal {
            fault: Fault::TooLong,
            place: text.len(),
            passed: 0,
        });
    }
    let room = room_for(limits, table.len() / ROW, values.len());
    let found = scan_text(text, room, table, values);
    link(table, passed_of(found));
    found
}

// The word that starts at an offset of the text, as a part of it; an empty part if none starts there.
pub fn word_at(text: &[u8], at: usize) -> &[u8]
    ensures { result.now ≡ enquired text.now at }
{
    let mut start = first_start(text, 0);
    while (start < at) & (start < text.len()) {
        start = first_start(text, word_end(text, start));
    }
    if (start == at) & (start < text.len()) {
        let end = word_end(text, start);
        return &text[start..end];
    }
    &text[..0]
}

// The length of the word that starts at an offset of the text, for C: 0 if none starts there.
pub fn sverdhyll_word(text: &[u8], at: usize) -> usize
    ensures { result ≡ length (enquired text.now at) }
{
    let word = word_at(text, at);
    word.len()
}

// The line and the column of a place of the text, for C: they are put where the caller says.
pub fn sverdhyll_position(text: &[u8], place: usize, line: &mut u64, column: &mut u64)
    ensures { Positioned text.now place (record { line = line.exit.now; column = column.new }) }
{
    let found = position(text, place);
    *line = found.line as u64;
    *column = found.column as u64;
}

// Reads the words of a text for C: returns the answer's number, 0 where the whole text was read, and puts its place and how many words were passed where
// the caller says.
pub fn sverdhyll_words(
    text: &[u8],
    bytes: u32,
    words: u32,
    nesting: u32,
    table: &mut [u32],
    values: &mut [u64],
    place: &mut usize,
    count: &mut usize,
) -> u8
    ensures { WordsForC (record { bytes = bytes; words = words; nesting = nesting }) text.now table.old values.old
        result place.new count.new table.new values.new }
{
    let limits = Limits {
        bytes,
        words,
        nesting,
    };
    let found = read_words(text, limits, table, values);
    *place = place_of(found);
    *count = passed_of(found);
    number_of(found)
}
