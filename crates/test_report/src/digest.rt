//! One number for a word table and its values: FNV-1a of 64 bits, a step for each number.
use words::table::{end_at, kind_at, next_at, start_at, width_at};

// What a digest begins with.
const BASIS: u64 = 14695981039346656037;

// What each step multiplies by.
const PRIME: u64 = 1099511628211;

// The digest after one number more.
fn step(digest: u64, n: u64) -> u64 {
    (digest ^ n).wrapping_mul(PRIME)
}

// The digest after a word's row and its value.
fn word_step(digest: u64, table: &[u32], values: &[u64], word: usize) -> u64 {
    let kind = step(digest, kind_at(table, word) as u64);
    let start = step(kind, start_at(table, word) as u64);
    let end = step(start, end_at(table, word) as u64);
    let width = step(end, width_at(table, word) as u64);
    let next = step(width, next_at(table, word) as u64);
    step(next, values.get(word).copied().unwrap_or(0))
}

// The digest of the first `count` words.
pub fn digest_of(table: &[u32], values: &[u64], count: usize) -> u64 {
    (0..count).fold(BASIS, |digest, word| word_step(digest, table, values, word))
}
