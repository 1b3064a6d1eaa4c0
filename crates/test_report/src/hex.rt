//! Bytes and numbers from hex digits.
ghost use Rattle.std.specs.Prelude.{◌≡◌, ◌<◌, ◌≤◌, length, take};

use crate::fields::{field_end, next_field};

// The value of a hex digit in lower case, 0 of another byte.
fn digit(b: u8) -> u8
    ensures { result < 16 }
{
    match b {
        b'0'..=b'9' => b - b'0',
        b'a'..=b'f' => b - b'a' + 10,
        _ => 0,
    }
}

// Writes the bytes that pairs of hex digits stand for, as far as there is room, and answers how many there are.
pub fn decode(digits: &[u8], bytes: &mut [u8]) -> usize
    ensures { (result ≤ length bytes.new) × (result ≡ length (take result bytes.new)) }
{
    let count = (digits.len() / 2).min(bytes.len());
    for i in 0..count {
        bytes[i] = digit(digits[2 * i]) * 16 + digit(digits[2 * i + 1]);
    }
    count
}

// The number that hex digits stand for, modulo 2^64.
pub fn number_of(digits: &[u8]) -> u64 {
    digits
        .iter()
        .fold(0, |number, byte| (number << 4) | u64::from(digit(*byte)))
}

// Where a list of numbers begins: at its end where it is `-`, which stands for none.
fn list_start(digits: &[u8]) -> usize
    ensures { result ≤ length digits.now }
{
    if digits.starts_with(b"-") {
        digits.len()
    } else {
        0
    }
}

// Writes the numbers that hex digits between commas stand for, as far as there is room, and answers how many there are.
pub fn decode_numbers(digits: &[u8], numbers: &mut [u64]) -> usize
    ensures { (result ≤ length numbers.new) × (result ≡ length (take result numbers.new)) }
{
    let mut at = list_start(digits);
    let mut i = 0;
    while at < digits.len() && i < numbers.len() {
        let end = field_end(digits, at, b',');
        numbers[i] = number_of(&digits[at..end]);
        at = next_field(digits, end);
        i += 1;
    }
    i
}
