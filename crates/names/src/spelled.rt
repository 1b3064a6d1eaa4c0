//! The bytes of a word.
ghost use Rattle.std.specs.Prelude.{◌≡◌};
ghost use Rattle.names.specs.code.Lookup.{bytes_at};

use forest::numbers::least;
use lexemes::{end_at, start_at};

// The bytes of a word; none past the end of the table or of the text.
pub fn bytes_at<'a>(text: &'a [u8], lexemes: &[u64], word: usize) -> &'a [u8]
    ensures { result.now ≡ bytes_at text.now lexemes.now word }
{
    let start = start_at(lexemes, word);
    let end = least(end_at(lexemes, word), text.len());
    if start < end {
        return &text[start..end];
    }
    &text[..0]
}
