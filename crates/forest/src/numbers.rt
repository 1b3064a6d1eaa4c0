//! Numbers: the lesser of two, and a number of a row in a table.
ghost use Rattle.std.specs.Prelude.{◌≡◌, ◌<◌, ◌≤◌, min, get_or, set};
ghost use Rattle.forest.specs.code.Rows.{number_at, widest};

// The lesser of two numbers.
pub fn least(one: usize, other: usize) -> usize
    ensures { result ≡ min one other }
{
    one.min(other)
}

// The number at a place of a table; 0 past its end.
pub fn entry_at(table: &[u64], place: usize) -> u64
    ensures { result ≡ get_or table.now place 0 }
{
    table.get(place).copied().unwrap_or(0)
}

// Puts a number at a place of a table; past its end there is none to put it at.
pub fn put_entry(table: &mut [u64], place: usize, number: u64)
    ensures { table.new ≡ set table.old place number }
{
    if place < table.len() {
        table[place] = number;
    }
}

// Number `column` of a row in a table whose rows have `width` numbers; 0 past the end of the table.
pub fn number_at(table: &[u64], width: usize, row: usize, column: usize) -> u64
    requires column_lt_width { column < width }
    requires width_le_widest { width ≤ widest }
    ensures { result ≡ number_at width table.now row column }
{
    if row < table.len() / width {
        return table[width * row + column];
    }
    if row >= table.len() {
        return 0;
    }
    entry_at(table, width * row + column)
}
