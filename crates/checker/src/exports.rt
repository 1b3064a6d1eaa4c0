//! The checker for C.
ghost use Rattle.std.specs.Prelude.{◌≡◌, length};
ghost use Rattle.words.specs.Words.{enquired};
ghost use Rattle.words.specs.Positions.{Positioned};
ghost use Rattle.outcome.specs.Checked.{Answered};
ghost use Rattle.outcome.specs.Located.{AnswerForC, TextsAnswerForC};
ghost use Rattle.outcome.specs.StepList.{StepsForC};
ghost use Rattle.runner.specs.Running.{RanForC};
ghost use Rattle.evidence.specs.Evidence.{AuditForC, FiledForC};

use crate::stepping::step_list;
use crate::{answer, check, read};
use auditing::check_evidence;
use both_texts::answers::write_answer;
use filing::write_evidence;
use words::positions::position;
use words::word_at;

// `check` for C: returns the answer's number and puts its text, its place, its second number and its units where the caller lends room for them.
pub fn sverdhyll_check(
    script: &[u8],
    response: &[u8],
    points: &[u64],
    budget: u64,
    shown: &mut [u16],
    text: &mut u8,
    place: &mut u64,
    second: &mut u64,
    units: &mut u64,
) -> u8
    ensures { Answered script.now response.now points.now budget shown.old
        (record { number = result; text = text.new; place = place.new; second = second.new; units = units.new })
        shown.new }
{
    let outcome = check(script, response, points, budget, shown);
    *text = outcome.text as u8;
    *place = outcome.place as u64;
    *second = outcome.second as u64;
    *units = outcome.units;
    outcome.number as u8
}

// The length of the word that starts at an offset of a text; 0 if no word starts there.
pub fn sverdhyll_word(text: &[u8], at: usize) -> usize
    ensures { result ≡ length (enquired text.now at) }
{
    let word = word_at(text, at);
    word.len()
}

// `answer` for C: returns the answer's number, and puts the sixteen numbers where the caller lends room for them.
pub fn sverdhyll_answer(
    script: &[u8],
    response: &[u8],
    points: &[u64],
    budget: u64,
    shown: &mut [u16],
    numbers: &mut [u64; 16],
) -> u8
    ensures { AnswerForC script.now response.now points.now budget shown.old result
        numbers.new shown.new }
{
    let found = answer(script, response, points, budget, shown);
    write_answer(found, numbers);
    found.outcome.number as u8
}

// `read` for C: returns the answer's number, and puts the sixteen numbers where the caller lends room for them.
pub fn sverdhyll_read(script: &[u8], response: &[u8], numbers: &mut [u64; 16]) -> u8
    ensures { TextsAnswerForC script.now response.now result numbers.new }
{
    let told = read(script, response);
    write_answer(told, numbers);
    told.outcome.number as u8
}

// `step_list` for C: returns the answer's number, and puts the count of steps and the sixteen numbers where the caller lends room for them.
pub fn sverdhyll_steps(
    script: &[u8],
    response: &[u8],
    points: &[u64],
    budget: u64,
    function: u64,
    area: &mut [u64],
    count: &mut usize,
    numbers: &mut [u64; 16],
) -> u8
    ensures { StepsForC script.now response.now points.now budget function area.old result
        numbers.new count.new area.new }
{
    let listed = step_list(script, response, points, budget, function as usize, area);
    write_answer(listed.answer, numbers);
    *count = listed.count;
    listed.answer.outcome.number as u8
}

// `run_steps` for C: returns the answer's number and puts its place, and the value and its sort, where the caller lends room for them.
pub fn sverdhyll_run(
    sorts: &[u64],
    arguments: &[u64],
    steps: &[u64],
    place: &mut u64,
    value: &mut u64,
    sort: &mut u64,
) -> u8
    ensures { RanForC sorts.now arguments.now steps.now result place.new value.new sort.new }
{
    runner::sverdhyll_run(sorts, arguments, steps, place, value, sort)
}

// `write_evidence` for C: returns the answer's number, and puts the file's length and the sixteen numbers where the caller lends room for them.
pub fn sverdhyll_write_evidence(
    script: &[u8],
    response: &[u8],
    area: &mut [u8],
    length: &mut usize,
    numbers: &mut [u64; 16],
) -> u8
    ensures { FiledForC script.now response.now area.old result numbers.new length.new
        area.new }
{
    let written = write_evidence(script, response, area);
    write_answer(written.answer, numbers);
    *length = written.length;
    written.answer.outcome.number as u8
}

// `check_evidence` for C: returns the answer's number, and puts the sixteen numbers where the caller lends room for them.
pub fn sverdhyll_check_evidence(file: &[u8], numbers: &mut [u64; 16]) -> u8
    ensures { AuditForC file.now result numbers.new }
{
    let audit = check_evidence(file);
    write_answer(audit, numbers);
    audit.outcome.number as u8
}

// The line and the column of a place of a text, for C: they are put where the caller says.
pub fn sverdhyll_position(text: &[u8], place: usize, line: &mut u64, column: &mut u64)
    ensures { Positioned text.now place (record { line = line.exit.now; column = column.new }) }
{
    let found = position(text, place);
    *line = found.line as u64;
    *column = found.column as u64;
}
