//! Records, one a line.
ghost use Rattle.std.specs.Prelude.{◌≤◌, length};

use crate::answers::report_answer;
use std::io;
use std::io::Write;
use test_report::fields::{field_end, next_field};
use test_report::texts::report_text;
use words::{response_limits, script_limits};

// Writes what the reader of words finds in the two texts of a record.
fn report_texts(
    out: &mut impl Write,
    name: &[u8],
    script: &[u8],
    response: &[u8],
) -> io::Result<()> {
    out.write_all(name)?;
    out.write_all(b" script")?;
    report_text(out, script, script_limits())?;
    out.write_all(b" response")?;
    report_text(out, response, response_limits())
}

// Reports the answer to two texts with what is given beside them, from `start` on: the points, the budget and the size of the area.
fn report_rest(
    out: &mut impl Write,
    line: &[u8],
    script: &[u8],
    response: &[u8],
    start: usize,
) -> io::Result<()>
    requires { start ≤ length line.now }
{
    let points_end = field_end(line, start, b' ');
    let budget = next_field(line, points_end);
    let budget_end = field_end(line, budget, b' ');
    let area = next_field(line, budget_end);
    report_answer(
        out,
        script,
        response,
        &line[start..points_end],
        &line[budget..budget_end],
        &line[area..],
    )
}

// Reports one record.
fn report_one(out: &mut impl Write, line: &[u8]) -> io::Result<()> {
    let name = 0;
    let name_end = field_end(line, name, b' ');
    let script = next_field(line, name_end);
    let script_end = field_end(line, script, b' ');
    let response = next_field(line, script_end);
    let response_end = field_end(line, response, b' ');
    let points = next_field(line, response_end);
    report_texts(
        out,
        &line[name..name_end],
        &line[script..script_end],
        &line[response..response_end],
    )?;
    report_rest(
        out,
        line,
        &line[script..script_end],
        &line[response..response_end],
        points,
    )?;
    out.write_all(b"\n")
}

// Reports each record of the input.
pub fn report_all(out: &mut impl Write, input: &[u8]) -> io::Result<()> {
    let mut at = 0;
    while at < input.len() {
        let end = field_end(input, at, b'\n');
        report_one(out, &input[at..end])?;
        at = end + 1;
    }
    Ok(())
}
