//! Where a place of a text stands: its line, its column, and the end of the word there.
ghost use Rattle.std.specs.Prelude.{◌+◌, min, ◌≡◌, length};
ghost use Rattle.words.specs.Positions.{Positioned, end_of, greatest};

use crate::{Position, word_at};

// A line ends at byte 10 only.
const LINE_END: u8 = 10;

// Where the end of a text stands.
fn end_position(text: &[u8]) -> Position
    ensures { Positioned text.now (length text.now) result }
{
    let mut lines = 0usize;
    let mut bytes = 0usize;
    for byte in text {
        if *byte == LINE_END {
            lines += 1;
            bytes = 0;
        } else {
            bytes += 1;
        }
    }
    Position {
        line: lines.saturating_add(1),
        column: bytes.saturating_add(1),
    }
}

// Where a place of a text stands; a place past its end stands where the end does.
pub fn position(text: &[u8], place: usize) -> Position
    ensures { Positioned text.now place result }
{
    if place < text.len() {
        return end_position(&text[..place]);
    }
    end_position(text)
}

// The offset past the word that starts at a place of a text; the place itself if none starts there.
pub fn end_of(text: &[u8], place: usize) -> usize
    ensures { result ≡ end_of text.now place }
{
    let word = word_at(text, place);
    place + word.len()
}
