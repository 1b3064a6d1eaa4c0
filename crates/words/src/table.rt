//! The word table: for each word five numbers, its kind, start, end, width and next. A word past the end of a table has zeros.
ghost use Rattle.std.specs.Prelude.{◌≡◌, ◌<◌};
ghost use Rattle.forest.specs.code.Rows.{number_at};
ghost use Rattle.words.specs.code.Table.{end_at, kind_at, next_at, start_at, width_at};

// How many numbers a row has.
pub const ROW: usize = 5;

// The numbers of kinds.
pub const OPEN: u32 = 1;

pub const CLOSE: u32 = 2;

pub const NUMERAL: u32 = 3;

pub const LITERAL: u32 = 4;

pub const SYMBOL: u32 = 5;

pub const KEYWORD: u32 = 6;

// Number `column` of a word.
fn number_at(table: &[u32], word: usize, column: usize) -> u32
    requires { column < 5 }
    ensures { result ≡ number_at 5 table.now word column }
{
    if word >= table.len() {
        return 0;
    }
    table.get(ROW * word + column).copied().unwrap_or(0)
}

// The number of a word's kind.
pub fn kind_at(table: &[u32], word: usize) -> u32
    ensures { result ≡ kind_at table.now word }
{
    number_at(table, word, 0)
}

// The offset of a word.
pub fn start_at(table: &[u32], word: usize) -> usize
    ensures { result ≡ start_at table.now word }
{
    number_at(table, word, 1) as usize
}

// The offset past a word.
pub fn end_at(table: &[u32], word: usize) -> usize
    ensures { result ≡ end_at table.now word }
{
    number_at(table, word, 2) as usize
}

// The width of a literal, 0 of another word.
pub fn width_at(table: &[u32], word: usize) -> u32
    ensures { result ≡ width_at table.now word }
{
    number_at(table, word, 3)
}

// The word past a word, or past the list that it begins.
pub fn next_at(table: &[u32], word: usize) -> usize
    ensures { result ≡ next_at table.now word }
{
    number_at(table, word, 4) as usize
}
