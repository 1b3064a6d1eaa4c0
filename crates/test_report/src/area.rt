//! The lent area: how it is filled before a call, and what is written of it afterwards.
ghost use Rattle.std.specs.Prelude.{◌≡◌, ◌*◌, ◌<◌, ◌≤◌, length};

use std::io;
use std::io::Write;

// How many entries an area must have.
const AREA: usize = 32768;

// How many entries the list of one function has room for.
const LIST: usize = 4096;

// How many functions have a list.
const FUNCTIONS: usize = 8;

// An entry that no list uses.
const UNUSED: u16 = 65535;

// An entry as it is before the call.
const LENT: u16 = 4660;

// An area of two entries more than it must have, every one as before the call.
pub fn area_room() -> [u16; 32770]
    ensures { 32770 ≡ length result }
{
    [LENT; 32770]
}

// Whether every entry is a given one.
fn all_are(entries: &[u16], entry: u16) -> bool {
    entries.iter().all(|other| *other == entry)
}

// How many entries of a list stand before the first that is unused.
fn list_length(list: &[u16]) -> usize
    ensures { result ≤ length list.now }
{
    list.iter()
        .position(|entry| *entry == UNUSED)
        .unwrap_or(list.len())
}

// How many lists there are: those before the first that has no entry.
fn lists_in(area: &[u16]) -> usize
    requires { 32768 ≡ length area.now }
    ensures { result ≤ 8 }
{
    for k in 0..FUNCTIONS {
        if area[LIST * k] == UNUSED {
            return k;
        }
    }
    FUNCTIONS
}

// Whether every entry that is in none of the first `count` lists is unused.
fn rest_unused(area: &[u16], count: usize) -> bool
    requires { (32768 ≡ length area.now) × (count ≤ 8) }
{
    for k in 0..count {
        let list = &area[LIST * k..LIST * k + LIST];
        if !all_are(&list[list_length(list)..], UNUSED) {
            return false;
        }
    }
    all_are(&area[LIST * count..], UNUSED)
}

// Writes the entries of a list, with commas between.
fn write_list(out: &mut impl Write, list: &[u16]) -> io::Result<()> {
    for (i, entry) in list[..list_length(list)].iter().enumerate() {
        if i > 0 {
            out.write_all(b",")?;
        }
        write!(out, "{entry}")?;
    }
    Ok(())
}

// Writes the first `count` lists, with strokes between.
fn write_lists(out: &mut impl Write, area: &[u16], count: usize) -> io::Result<()>
    requires { (32768 ≡ length area.now) × (count ≤ 8) }
{
    for k in 0..count {
        if k > 0 {
            out.write_all(b"/")?;
        }
        write_list(out, &area[LIST * k..LIST * k + LIST])?;
    }
    Ok(())
}

// Writes the lists that an area shows, where all other entries are unused.
fn report_lists(out: &mut impl Write, area: &[u16]) -> io::Result<()> {
    if area.len() == AREA {
        let count = lists_in(area);
        if rest_unused(area, count) {
            return write_lists(out, area, count);
        }
    }
    out.write_all(b"other")
}

// Writes what stands in an area after the call.
pub fn report_area(out: &mut impl Write, area: &[u16]) -> io::Result<()> {
    out.write_all(b" area ")?;
    if all_are(area, LENT) {
        return out.write_all(b"unchanged");
    }
    if all_are(area, UNUSED) {
        return out.write_all(b"blank");
    }
    report_lists(out, area)
}
