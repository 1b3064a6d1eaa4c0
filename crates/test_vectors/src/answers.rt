//! What is written of the checker's answer.
ghost use Rattle.std.specs.Prelude.{◌≡◌, ◌≤◌, length, take};

use checker::exports::sverdhyll_answer;
use std::io;
use std::io::Write;
use test_report::area::{area_room, report_area};
use test_report::hex::{decode, decode_numbers, number_of};
use test_report::texts::{text_room, write_number};

// The size of the area to be lent, given in hex: a part of the room there is.
fn area_size(digits: &[u8], room: &[u16]) -> usize
    ensures { (result ≤ length room.now) × (result ≡ length (take result room.now)) }
{
    (number_of(digits) as usize).min(room.len())
}

// Writes the sixteen numbers of an answer: its number, its text, its place, its second number and its units; the end of the word at its place, the line and
// the column; and the weight of each function's derivation.
fn write_answer(out: &mut impl Write, numbers: &[u64; 16]) -> io::Result<()> {
    write_number(out, b" answer ", numbers[0])?;
    for number in &numbers[1..] {
        write_number(out, b" ", *number)?;
    }
    Ok(())
}

// Writes the answer as C gets it, and what stands in the area afterwards.
fn report_check(
    out: &mut impl Write,
    script: &[u8],
    response: &[u8],
    points: &[u64],
    budget: u64,
    area: &mut [u16],
) -> io::Result<()> {
    let mut numbers = [0; 16];
    sverdhyll_answer(script, response, points, budget, area, &mut numbers);
    write_answer(out, &numbers)?;
    report_area(out, area)
}

// Does so for texts, points, a budget and the size of an area that are given in hex, in room for a list of points that is too long by one number.
pub fn report_answer(
    out: &mut impl Write,
    script_digits: &[u8],
    response_digits: &[u8],
    points_digits: &[u8],
    budget_digits: &[u8],
    area_digits: &[u8],
) -> io::Result<()> {
    let mut script = text_room();
    let mut response = text_room();
    let mut points = [0; 1025];
    let mut area = area_room();
    let script_size = decode(script_digits, &mut script);
    let response_size = decode(response_digits, &mut response);
    let count = decode_numbers(points_digits, &mut points);
    let size = area_size(area_digits, &area);
    report_check(
        out,
        &script[..script_size],
        &response[..response_size],
        &points[..count],
        number_of(budget_digits),
        &mut area[..size],
    )
}
