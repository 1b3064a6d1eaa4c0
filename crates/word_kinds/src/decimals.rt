//! The word `bvN` of a constant `(_ bvN n)`.
ghost use Rattle.std.specs.Prelude.{◌≡◌};
ghost use Rattle.word_kinds.specs.Decimals.{is_decimal, is_long};
ghost use Rattle.word_kinds.specs.code.Decimals.{Valued};

use crate::kinds::{digit_value, is_numeral};

// How many bytes stand before the numeral, and how many digits it has at the most.
const START: usize = 2;

const DIGITS: usize = 20;

// Whether a symbol is `bv` and then a numeral.
pub fn is_decimal(word: &[u8]) -> bool
    ensures { result ≡ is_decimal word.now }
{
    if word.len() <= START {
        return false;
    }
    if (word[0] != b'b') | (word[1] != b'v') {
        return false;
    }
    is_numeral(&word[START..])
}

// Whether its numeral has too many digits.
pub fn is_long(word: &[u8]) -> bool
    ensures { result ≡ is_long word.now }
{
    word.len() > START + DIGITS
}

// The value of its numeral, where it fits 64 bits.
pub fn decimal_value(word: &[u8]) -> Option<u64>
    ensures { Valued word.now result }
{
    let mut value = 0u64;
    for i in START..word.len() {
        value = value.checked_mul(10)?.checked_add(digit_value(word[i]))?;
    }
    Some(value)
}
