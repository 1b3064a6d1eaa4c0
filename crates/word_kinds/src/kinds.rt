//! What a word is, by its bytes.
ghost use Rattle.std.specs.Prelude.{◌≡◌, true, ◌-◌, ◌^◌, ◌<◌, ◌≤◌, length};
ghost use Rattle.word_kinds.specs.Kinds.{all_in, digit_value, hashed, in_class, keyword_form, kind_of, literal, marked, numeral, numeral_form, spelled, symbol};
ghost use Rattle.word_kinds.specs.code.Digits.{Radix, digits_below};

use crate::bytes::{in_symbol, is_binary_digit, is_digit, is_hex_digit, is_uncarried};
use crate::{Class, Fault, Kind};
use forest::search::same_bytes;

// A numeral's digits, a literal's bits and a symbol's bytes at the most.
const NUMERAL_DIGITS: usize = 9;

const LITERAL_BITS: usize = 64;

pub const SYMBOL_BYTES: usize = 64;

// The keyword of the feature; that of a rule's weight is all of it but its last byte.
const WEIGHTS: [u8; 8] = *b":weights";

// Whether a byte belongs to a class.
fn in_class(class: Class, byte: u8) -> bool
    ensures { result ≡ in_class class byte }
{
    match class {
        Class::Digits => is_digit(byte),
        Class::HexDigits => is_hex_digit(byte),
        Class::BinaryDigits => is_binary_digit(byte),
        Class::SymbolBytes => in_symbol(byte),
    }
}

// Whether all of the bytes belong to a class.
fn all_in(class: Class, word: &[u8]) -> bool
    ensures { result ≡ all_in class word.now }
{
    for byte in word {
        if !in_class(class, *byte) {
            return false;
        }
    }
    true
}

// The value of a digit of base 16 or less.
pub(crate) fn digit_value(byte: u8) -> u64
    ensures { result ≡ digit_value byte }
{
    let code = u64::from(byte);
    match byte {
        0..=b'9' => code.saturating_sub(48),
        b':'..=b'F' => 10 + code.saturating_sub(65),
        _ => 10 + code.saturating_sub(97),
    }
}

// The number that digits spell in a base.
fn spell(base: u64, digits: &[u8]) -> u64
    requires { (digits_below base digits.now ≡ true) × (base ^ length digits.now ≤ 2 ^ 64) }
    ensures { result ≡ spelled base 0 digits.now }
{
    let mut value = 0;
    for digit in digits {
        value = value * base + digit_value(*digit);
    }
    value
}

// Whether bytes, of which there are some, are `0`, or digits not starting with 0.
pub(crate) fn is_numeral(word: &[u8]) -> bool
    requires { 0 < length word.now }
    ensures { result ≡ numeral_form word.now }
{
    all_in(Class::Digits, word) && (word.len() == 1 || word[0] != b'0')
}

// A word that begins with a digit.
fn numeral_of(word: &[u8]) -> Kind
    requires { 0 < length word.now }
    ensures { result ≡ numeral word.now }
{
    if !is_numeral(word) {
        return Kind::Faulty(Fault::BadWord);
    }
    if word.len() > NUMERAL_DIGITS {
        return Kind::Faulty(Fault::PastLimit);
    }
    Kind::Numeral(spell(10, word))
}

// What `#x` is followed by, with 4 bits to a digit, or `#b`, with 1.
fn literal_of(class: Class, bits: usize, base: u64, digits: &[u8]) -> Kind
    requires { Radix class bits base }
    ensures { result ≡ literal class bits digits.now }
{
    if !(all_in(class, digits) & (digits.len() != 0)) {
        return Kind::Faulty(Fault::BadWord);
    }
    if digits.len() > LITERAL_BITS / bits {
        return Kind::Faulty(Fault::PastLimit);
    }
    Kind::Literal((bits * digits.len()) as u32, spell(base, digits))
}

// What follows `#`.
fn hashed_of(word: &[u8]) -> Kind
    ensures { result ≡ hashed word.now }
{
    if word.len() == 0 {
        return Kind::Faulty(Fault::BadWord);
    }
    if word[0] == b'x' {
        return literal_of(Class::HexDigits, 4, 16, &word[1..]);
    }
    if word[0] == b'b' {
        return literal_of(Class::BinaryDigits, 1, 2, &word[1..]);
    }
    Kind::Faulty(Fault::BadWord)
}

// A word that begins neither with a digit nor with `#`.
fn symbol_of(word: &[u8]) -> Kind
    ensures { result ≡ symbol word.now }
{
    if !all_in(Class::SymbolBytes, word) {
        return Kind::Faulty(Fault::BadWord);
    }
    if word.len() > SYMBOL_BYTES {
        return Kind::Faulty(Fault::PastLimit);
    }
    Kind::Symbol
}

// Whether a word is a keyword that is carried.
fn is_keyword(word: &[u8]) -> bool
    ensures { result ≡ keyword_form word.now }
{
    let name = WEIGHTS;
    same_bytes(&name, word) | same_bytes(&name[..7], word)
}

// A word that begins with `"`, `|` or `:`.
fn marked_of(word: &[u8]) -> Kind
    ensures { result ≡ marked word.now }
{
    if is_keyword(word) {
        return Kind::Keyword;
    }
    Kind::Faulty(Fault::NotCarried)
}

// What a word is.
#[inline(never)]
pub fn kind_of(word: &[u8]) -> Kind
    ensures { result ≡ kind_of word.now }
{
    if word.len() == 0 {
        return Kind::Faulty(Fault::BadWord);
    }
    let first = word[0];
    if first == b'(' {
        return Kind::Open;
    }
    if first == b')' {
        return Kind::Close;
    }
    if is_uncarried(first) {
        return marked_of(word);
    }
    if is_digit(first) {
        return numeral_of(word);
    }
    if first == b'#' {
        return hashed_of(&word[1..]);
    }
    symbol_of(word)
}
