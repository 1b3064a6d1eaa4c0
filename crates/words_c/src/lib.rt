//! The reader of words for C.
#![tactic(auto)]

ghost use Rattle.std.specs.Prelude.{◌≡◌, length};
ghost use Rattle.words.specs.Positions.{Positioned};
ghost use Rattle.words.specs.Reading.{WordsForC};
ghost use Rattle.words.specs.Words.{enquired};

// The length of the word that starts at an offset of the text, for C: 0 if none starts there.
#[unsafe(no_mangle)]
pub extern "C" fn sverdhyll_word(text: &[u8], at: usize) -> usize
    ensures { result ≡ length (enquired text.now at) }
{
    words::sverdhyll_word(text, at)
}

// The line and the column of a place of the text, for C: they are put where the caller says.
#[unsafe(no_mangle)]
pub extern "C" fn sverdhyll_position(text: &[u8], place: usize, line: &mut u64, column: &mut u64)
    ensures { Positioned text.now place (record { line = line.exit.now; column = column.new }) }
{
    words::sverdhyll_position(text, place, line, column);
}

// Reads the words of a text for C: returns the answer's number, 0 where the whole text was read, and puts its place and how many words were passed where
// the caller says.
#[unsafe(no_mangle)]
pub extern "C" fn sverdhyll_words(
    text: &[u8],
    bytes: u32,
    words: u32,
    nesting: u32,
    table: &mut [u32],
    values: &mut [u64],
    place: &mut usize,
    count: &mut usize,
) -> u8
    ensures { WordsForC (record { bytes = bytes; words = words; nesting = nesting }) text.now table.old values.old
        result place.new count.new table.new values.new }
{
    words::sverdhyll_words(text, bytes, words, nesting, table, values, place, count)
}
