//! The row of a word and its value.
ghost use Rattle.std.specs.Prelude.{◌≡◌};
ghost use Rattle.words.specs.code.Rows.{Room, Written};
ghost use Rattle.words.specs.Table.{kind_number, value_of, width_of};

use crate::table::{CLOSE, KEYWORD, LITERAL, NUMERAL, OPEN, ROW, SYMBOL};
use word_kinds::Kind;

// The number of a kind in the table; 0 for a faulty word, which has no row.
pub fn kind_number(kind: Kind) -> u32
    ensures { result ≡ kind_number kind }
{
    match kind {
        Kind::Open => OPEN,
        Kind::Close => CLOSE,
        Kind::Numeral(_) => NUMERAL,
        Kind::Literal(_, _) => LITERAL,
        Kind::Symbol => SYMBOL,
        Kind::Keyword => KEYWORD,
        Kind::Faulty(_) => 0,
    }
}

// The width of a literal, 0 of another word.
fn width_of(kind: Kind) -> u32
    ensures { result ≡ width_of kind }
{
    match kind {
        Kind::Literal(width, _) => width,
        _ => 0,
    }
}

// The value of a numeral or a literal, 0 of another word.
fn value_of(kind: Kind) -> u64
    ensures { result ≡ value_of kind }
{
    match kind {
        Kind::Literal(_, value) | Kind::Numeral(value) => value,
        _ => 0,
    }
}

// Writes a word's row, whose next is not known yet, and its value.
pub fn put_word(
    table: &mut [u32],
    values: &mut [u64],
    word: usize,
    kind: Kind,
    start: usize,
    end: usize,
)
    requires { Room table.old values.old word start end }
    ensures { Written table.old values.old word (record { kind = kind; start = start; end = end })
        table.new values.new }
{
    let number = kind_number(kind);
    let width = width_of(kind);
    let value = value_of(kind);
    let at = ROW * word;
    table[at] = number;
    table[at + 1] = start as u32;
    table[at + 2] = end as u32;
    table[at + 3] = width;
    table[at + 4] = 0;
    values[word] = value;
}
