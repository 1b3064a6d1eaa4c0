//! Parts of a text between separators.
ghost use Rattle.std.specs.Prelude.{◌≤◌, length};

// The end of the field that begins at `start`: the next separator, or the end of the text.
pub fn field_end(text: &[u8], start: usize, separator: u8) -> usize
    requires { start ≤ length text.now }
    ensures { (start ≤ result) × (result ≤ length text.now) }
{
    for i in start..text.len() {
        if text[i] == separator {
            return i;
        }
    }
    text.len()
}

// The start of the field after one that ends at `end`.
pub fn next_field(text: &[u8], end: usize) -> usize
    requires { end ≤ length text.now }
    ensures { (end ≤ result) × (result ≤ length text.now) }
{
    (end + 1).min(text.len())
}
