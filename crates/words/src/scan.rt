//! The scan of a text: its words one after the other, and the first that is refused.
ghost use Rattle.std.specs.Prelude.{◌≡◌, ◌*◌, ◌≤◌, ◌<◌, ◌^◌, length};
ghost use Rattle.words.specs.Reading.{close_fault, depth_after, found_at_end, fault_at, lesser, limit_fault, own_fault};
ghost use Rattle.words.specs.code.Scan.{Scanned};

use crate::answers::fault_number;
use crate::rows::{kind_number, put_word};
use crate::spans::{first_start, word_end};
use crate::table::{CLOSE, OPEN};
use crate::{Limits, Reading, Refusal};
use word_kinds::kinds::kind_of;
use word_kinds::{Fault, Kind};

// A word's fault by its own bytes.
fn own_fault(kind: Kind) -> Option<Fault>
    ensures { result ≡ own_fault kind }
{
    match kind {
        Kind::Faulty(fault) => Some(fault),
        _ => None,
    }
}

// The fault of the two that has the lesser number, where there is one.
fn lesser_of(first: Option<Fault>, second: Option<Fault>) -> Option<Fault>
    ensures { result ≡ lesser first second }
{
    match (first, second) {
        (Some(one), Some(other)) if fault_number(other) < fault_number(one) => second,
        (Some(_), _) => first,
        (None, _) => second,
    }
}

// A bracket closed too often.
fn close_fault(kind: Kind, depth: usize) -> Option<Fault>
    ensures { result ≡ close_fault kind depth }
{
    if (kind_number(kind) == CLOSE) & (depth == 0) {
        return Some(Fault::Bracket);
    }
    None
}

// A word past the word count, or a list past the nesting.
fn limit_fault(limits: Limits, kind: Kind, count: usize, depth: usize) -> Option<Fault>
    ensures { result ≡ limit_fault limits kind count depth }
{
    let words = limits.words as usize;
    let nesting = limits.nesting as usize;
    if (words <= count) | ((kind_number(kind) == OPEN) & (nesting <= depth)) {
        return Some(Fault::PastLimit);
    }
    None
}

// The least fault of a word before which `count` words stand and `depth` lists are open.
fn fault_at(limits: Limits, kind: Kind, count: usize, depth: usize) -> Option<Fault>
    ensures { result ≡ fault_at limits kind count depth }
{
    let bracket = close_fault(kind, depth);
    let limit = limit_fault(limits, kind, count, depth);
    lesser_of(own_fault(kind), lesser_of(bracket, limit))
}

// How many lists are open after a word.
fn depth_after(kind: Kind, depth: usize) -> usize
    requires { depth < 2 ^ 32 }
    ensures { result ≡ depth_after kind depth }
{
    let number = kind_number(kind);
    if number == OPEN {
        return depth + 1;
    }
    if (number == CLOSE) & (0 < depth) {
        return depth - 1;
    }
    depth
}

// What is found at the end of a text of `size` bytes and `count` words.
fn at_end(size: usize, count: usize, depth: usize) -> Reading
    ensures { result ≡ found_at_end size count depth }
{
    if depth == 0 {
        return Ok(count);
    }
    Err(Refusal {
        fault: Fault::Bracket,
        place: size,
        passed: count,
    })
}

// Reads words until one is refused or the text ends; the rows of the words passed stand in the table, and none is linked.
pub fn scan_text(text: &[u8], limits: Limits, table: &mut [u32], values: &mut [u64]) -> Reading
    requires { (length text.now < 2 ^ 32) × (5 * limits.words ≤ length table.old) × (limits.words ≤ length values.old) }
    ensures { Scanned limits text.now table.old values.old result table.new values.new }
{
    let mut count = 0;
    let mut depth = 0;
    let mut start = first_start(text, 0);
    while start < text.len() {
        let end = word_end(text, start);
        let kind = kind_of(&text[start..end]);
        if let Some(fault) = fault_at(limits, kind, count, depth) {
            return Err(Refusal {
                fault,
                place: start,
                passed: count,
            });
        }
        put_word(table, values, count, kind, start, end);
        depth = depth_after(kind, depth);
        count += 1;
        start = first_start(text, end);
    }
    at_end(text.len(), count, depth)
}
