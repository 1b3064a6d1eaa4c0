//! Kinds of bytes of which words are made.
ghost use Rattle.std.specs.Prelude.{◌≡◌};
ghost use Rattle.word_kinds.specs.Bytes.{binary_digit, digit, hex_digit, letter, mark, symbol_byte, uncarried};

// What begins a word that is not carried: `"`, `|`, `:`.
pub fn is_uncarried(byte: u8) -> bool
    ensures { result ≡ uncarried byte }
{
    matches!(byte, b'"' | b'|' | b':')
}

// `0` to `9`.
pub fn is_digit(byte: u8) -> bool
    ensures { result ≡ digit byte }
{
    byte.is_ascii_digit()
}

// A hex digit of either case.
pub fn is_hex_digit(byte: u8) -> bool
    ensures { result ≡ hex_digit byte }
{
    matches!(byte, b'0'..=b'9' | b'A'..=b'F' | b'a'..=b'f')
}

// `0` or `1`.
pub fn is_binary_digit(byte: u8) -> bool
    ensures { result ≡ binary_digit byte }
{
    matches!(byte, b'0' | b'1')
}

// A letter of either case.
fn is_letter(byte: u8) -> bool
    ensures { result ≡ letter byte }
{
    byte.is_ascii_alphabetic()
}

// One of the marks that a symbol may have.
fn is_mark(byte: u8) -> bool
    ensures { result ≡ mark byte }
{
    b"~!@$%^&*_-+=<>.?/".contains(&byte)
}

// A byte that a symbol may have.
pub fn in_symbol(byte: u8) -> bool
    ensures { result ≡ symbol_byte byte }
{
    is_letter(byte) || is_digit(byte) || is_mark(byte)
}
