//! What is written of one text.
ghost use Rattle.std.specs.Prelude.{◌≡◌, length};

use crate::digest::digest_of;
use crate::hex::decode;
use std::io;
use std::io::Write;
use words::answers::{fault_number, passed_of};
use words::{Limits, Reading, read_words, word_at};

// Room for a text that is too long by one byte, and for one byte more.
pub fn text_room() -> [u8; 65540]
    ensures { 65540 ≡ length result }
{
    [0; 65540]
}

// Writes a number in decimal after its name.
pub fn write_number(out: &mut impl Write, name: &[u8], n: u64) -> io::Result<()> {
    out.write_all(name)?;
    write!(out, "{n}")
}

// Writes what was found: how many words there are, or the refusal.
fn write_outcome(out: &mut impl Write, found: Reading) -> io::Result<()> {
    match found {
        Ok(count) => write_number(out, b" words ", count as u64),
        Err(refusal) => {
            write_number(out, b" refused ", u64::from(fault_number(refusal.fault)))?;
            write_number(out, b" at ", refusal.place as u64)?;
            write_number(out, b" after ", refusal.passed as u64)
        }
    }
}

// The length of the refused word, 0 where none is refused.
fn refused_length(text: &[u8], found: Reading) -> usize {
    match found {
        Ok(_) => 0,
        Err(refusal) => word_at(text, refusal.place).len(),
    }
}

// Writes what reading a text finds, and the digest of its word table, in room for more words than a text may have.
fn report_words(out: &mut impl Write, text: &[u8], limits: Limits) -> io::Result<()> {
    let mut table = [0; 41000];
    let mut values = [0; 8200];
    let found = read_words(text, limits, &mut table, &mut values);
    write_outcome(out, found)?;
    let digest = digest_of(&table, &values, passed_of(found));
    write!(out, " table {digest:016x}")?;
    write_number(out, b" word ", refused_length(text, found) as u64)
}

// Writes what reading a text that is given in hex finds.
pub fn report_text(out: &mut impl Write, digits: &[u8], limits: Limits) -> io::Result<()> {
    let mut text = text_room();
    let n = decode(digits, &mut text);
    report_words(out, &text[..n], limits)
}
