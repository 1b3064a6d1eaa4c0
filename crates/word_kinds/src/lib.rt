//! Words by their bytes: what a word is, or why it is refused.
#![tactic(auto)]

mod bytes;
pub mod decimals;
pub mod kinds;

// The classes of bytes of which words are made.
#[derive(Clone, Copy)]
pub enum Class {
    Digits,
    HexDigits,
    BinaryDigits,
    SymbolBytes,
}

// Why a text is refused.
#[derive(Clone, Copy)]
pub enum Fault {
    TooLong,
    BadWord,
    Bracket,
    PastLimit,
    NotCarried,
}

// What a word is: a numeral has its value, a literal its width in bits and its value; a keyword is one that is carried.
#[derive(Clone, Copy)]
pub enum Kind {
    Open,
    Close,
    Numeral(u64),
    Literal(u32, u64),
    Symbol,
    Keyword,
    Faulty(Fault),
}
