//! The writing of an evidence file: payload bytes one after the other, and behind every 510 of them their sum.
ghost use Rattle.std.specs.Prelude.{◌≡◌, ◌+◌, ◌*◌, ◌<◌, ◌≤◌, ◌^◌, ◌==◌, [], ◌∷◌, ◌++◌, length, not, replicate, take_while};
ghost use Rattle.forest.specs.Limits.{area_size, most_functions, unused};
ghost use Rattle.forest.specs.Tables.{over, rows};
ghost use Rattle.blocks.specs.Blocks.{file_of, low};
ghost use Rattle.blocks.specs.code.Lists.{file_length, lengths_of, rules_in, rules_of};
ghost use Rattle.blocks.specs.code.Shown.{list_shown, lists_shown};
ghost use Rattle.blocks.specs.code.Places.{Fitting, Written};

use crate::{BLOCK, HEAD, MODULUS, PAY, Place};
use forest::limits::{FUNCTIONS, LIST, UNUSED};

// Writes a payload byte, and behind the last one of a block the two bytes of the sum.
fn put(area: &mut [u8], place: Place, byte: u8) -> Place
    requires { Fitting place (byte ∷ []) area.old }
    ensures { Written place (byte ∷ []) area.old area.new result }
{
    let at = place.at;
    let filled = place.filled + 1;
    let sum = (place.sum + filled * usize::from(byte)) % MODULUS;
    area[at] = byte;
    if filled < PAY {
        return Place {
            at: at + 1,
            filled,
            sum,
        };
    }
    let held = (sum as u16).to_le_bytes();
    area[at + 1] = held[0];
    area[at + 2] = held[1];
    Place {
        at: at + 3,
        filled: 0,
        sum: 0,
    }
}

// Writes bytes.
fn put_bytes(area: &mut [u8], start: Place, bytes: &[u8]) -> Place
    requires { Fitting start bytes.now area.old }
    ensures { Written start bytes.now area.old area.new result }
{
    let mut place = start;
    for byte in bytes {
        place = put(area, place, *byte);
    }
    place
}

// Writes zeros.
fn put_zeros(area: &mut [u8], start: Place, count: usize) -> Place
    requires { Fitting start (replicate count 0) area.old }
    ensures { Written start (replicate count 0) area.old area.new result }
{
    let mut place = start;
    for _ in 0..count {
        place = put(area, place, 0);
    }
    place
}

// Writes the low bytes of a number, `size` of them.
fn put_number(area: &mut [u8], place: Place, number: usize, size: usize) -> Place
    requires size_low { size ≤ 8 }
    requires fitting { Fitting place (low size number) area.old }
    ensures { Written place (low size number) area.old area.new result }
{
    put_bytes(area, place, &number.to_le_bytes()[..size])
}

// How many entries stand before the first that is not used.
fn count_used(entries: &[u16]) -> usize
    ensures { result ≡ length (take_while (λ entry. not (entry == unused)) entries.now) }
{
    entries.iter().take_while(|entry| **entry != UNUSED).count()
}

// The list of a function.
fn list_shown(shown: &[u16], function: usize) -> &[u16]
    requires shown_len { length shown.now ≡ area_size }
    requires function_low { function < most_functions }
    ensures { result.now ≡ list_shown shown.now function }
{
    let entries = &shown[LIST * function..LIST * (function + 1)];
    let count = count_used(entries);
    &entries[..count]
}

// Writes rules, two bytes each.
fn put_rules(area: &mut [u8], start: Place, rules: &[u16]) -> Place
    requires { Fitting start (rows (low 2) rules.now) area.old }
    ensures { Written start (rows (low 2) rules.now) area.old area.new result }
{
    let mut place = start;
    for rule in rules {
        place = put_number(area, place, usize::from(*rule), 2);
    }
    place
}

// Writes the lengths of the eight lists.
fn put_lengths(area: &mut [u8], start: Place, shown: &[u16]) -> Place
    requires shown_len { length shown.now ≡ area_size }
    requires fitting { Fitting start (lengths_of (lists_shown shown.now)) area.old }
    ensures { Written start (lengths_of (lists_shown shown.now)) area.old area.new result }
{
    let mut place = start;
    for function in 0..FUNCTIONS {
        place = put_number(area, place, list_shown(shown, function).len(), 2);
    }
    place
}

// Writes the rules of the eight lists.
fn put_lists(area: &mut [u8], start: Place, shown: &[u16]) -> Place
    requires shown_len { length shown.now ≡ area_size }
    requires fitting { Fitting start (rules_of (lists_shown shown.now)) area.old }
    ensures { Written start (rules_of (lists_shown shown.now)) area.old area.new result }
{
    let mut place = start;
    for function in 0..FUNCTIONS {
        place = put_rules(area, place, list_shown(shown, function));
    }
    place
}

// How many rules the eight lists have.
pub fn rules_in(shown: &[u16]) -> usize
    requires { length shown.now ≡ area_size }
    ensures { result ≡ rules_in (lists_shown shown.now) }
{
    let mut rules = 0;
    for function in 0..FUNCTIONS {
        rules += list_shown(shown, function).len();
    }
    rules
}

// The length of a file, by the lengths of its texts and the number of its rules.
pub fn file_length(script: usize, response: usize, rules: usize) -> usize
    requires { script + response + 2 * rules < 2 ^ 62 }
    ensures { result ≡ file_length script response rules }
{
    BLOCK * (HEAD + script + response + 2 * rules).div_ceil(PAY)
}

// Writes the lengths of the texts and of the lists.
fn put_head(area: &mut [u8], start: Place, script: usize, response: usize, shown: &[u16]) -> Place
    requires shown_len { length shown.now ≡ area_size }
    requires fitting { Fitting start (low 4 script ++ low 4 response ++ lengths_of (lists_shown shown.now)) area.old }
    ensures { Written start (low 4 script ++ low 4 response ++ lengths_of (lists_shown shown.now)) area.old area.new result }
{
    let first = put_number(area, start, script, 4);
    let second = put_number(area, first, response, 4);
    put_lengths(area, second, shown)
}

// Writes the file of a script, a response and the lists that an area shows, and gives its length.
pub fn write_file(area: &mut [u8], script: &[u8], response: &[u8], shown: &[u16]) -> usize
    requires shown_len { length shown.now ≡ area_size }
    requires shown_in_bounds { length (file_of script.now response.now (lists_shown shown.now)) ≤ length area.old }
    ensures value { result ≡ length (file_of script.now response.now (lists_shown shown.now)) }
    ensures area_after { area.new ≡ over (file_of script.now response.now (lists_shown shown.now)) area.old }
{
    let head = put_head(
        area,
        Place {
            at: 0,
            filled: 0,
            sum: 0,
        },
        script.len(),
        response.len(),
        shown,
    );
    let first = put_bytes(area, head, script);
    let second = put_bytes(area, first, response);
    let lists = put_lists(area, second, shown);
    let end = put_zeros(area, lists, (PAY - lists.filled) % PAY);
    end.at
}
