//! A response, from its bytes.
ghost use Rattle.std.specs.Prelude.{◌≡◌, ◌≤◌, length, min, ◌||◌, cond, eqb};
ghost use Rattle.forest.specs.Limits.{response_words};
ghost use Rattle.lexemes.specs.code.Table.{row_width};
ghost use Rattle.term_nodes.specs.code.Table.{row_width as rawWidth};
ghost use Rattle.script.specs.Outcome.{offset_of};
ghost use Rattle.texts.specs.code.Texts.{Placed, RowEach, response_rows};
ghost use Rattle.texts.specs.code.Responses.{ReadsResponse, Ready};

use crate::SHORT_RESPONSE;
use crate::lexed::offset_of;
use crate::text_words::read_lexemes;
use forest::limits::RESPONSE_WORDS;
use lexemes::ROW;
use response::answers::read_response;
use script::answers::{FAIL, INFEASIBLE};
use script::{Progress, Verdict};
use words::Limits;
use words::answers::{number_of, passed_of, place_of};

// The offset of a refusal of a response, by its number and its word; 10 and 11 have the offset 0.
fn refusal_offset(text: &[u8], lexemes: &[u64], count: usize, number: usize, word: usize) -> usize
    requires { Placed text.now lexemes.now count }
    ensures { result ≡ cond (eqb number 10 || eqb number 11) 0 (offset_of text.now word) }
{
    if (number == FAIL) | (number == INFEASIBLE) {
        return 0;
    }
    offset_of(text, lexemes, count, word)
}

// Reads a response within limits, with tables that have room for its lexemes and for what is gathered of it: its bodies stand in the others, or it is refused at an offset.
fn response_in(
    text: &[u8],
    limits: Limits,
    lexemes: &mut [u64],
    names: &[u8],
    raw: &mut [u64],
    places: &mut [u64],
    nodes: &mut [u64],
    progress: Progress,
) -> Verdict
    requires ready { Ready limits text.now names.now places.old nodes.old progress }
    requires row_each { RowEach limits text.now row_width lexemes.old }
    requires row_each_2 { RowEach limits text.now rawWidth raw.old }
    ensures { ReadsResponse limits text.now names.now places.old nodes.old progress
        places.new nodes.new result }
{
    let reading = read_lexemes(text, limits, lexemes);
    if number_of(reading) != 0 {
        return Verdict {
            number: number_of(reading) as usize,
            place: place_of(reading),
            rows: 0,
        };
    }
    let count = passed_of(reading);
    let verdict = read_response(
        text,
        &lexemes[..ROW * count],
        names,
        raw,
        places,
        nodes,
        progress,
        count,
    );
    Verdict {
        number: verdict.number,
        place: refusal_offset(text, lexemes, count, verdict.number, verdict.place),
        rows: verdict.rows,
    }
}

// Reads a response of at most `N` words, with tables that have room for so many.
fn response_of<const N: usize>(
    text: &[u8],
    limits: Limits,
    names: &[u8],
    places: &mut [u64],
    nodes: &mut [u64],
    progress: Progress,
) -> Verdict
    requires ready { Ready limits text.now names.now places.old nodes.old progress }
    requires few_rows { N ≤ response_words }
    requires few { min (length text.now) limits.words ≤ N }
    requires rows { N ≡ response_rows (length text.now) }
    ensures { ReadsResponse limits text.now names.now places.old nodes.old progress
        places.new nodes.new result }
{
    let mut lexemes = [[0; ROW]; N];
    let mut raw = [[0; term_nodes::ROW]; N];
    response_in(
        text,
        limits,
        lexemes.as_flattened_mut(),
        names,
        raw.as_flattened_mut(),
        places,
        nodes,
        progress,
    )
}

// Reads a response, within limits, to a script whose tables are given: its bodies stand in the tables, or it is refused at an offset.
pub fn read_response_text(
    text: &[u8],
    limits: Limits,
    names: &[u8],
    places: &mut [u64],
    nodes: &mut [u64],
    progress: Progress,
) -> Verdict
    requires { Ready limits text.now names.now places.old nodes.old progress }
    ensures { ReadsResponse limits text.now names.now places.old nodes.old progress
        places.new nodes.new result }
{
    if text.len() <= SHORT_RESPONSE {
        return response_of::<SHORT_RESPONSE>(text, limits, names, places, nodes, progress);
    }
    response_of::<RESPONSE_WORDS>(text, limits, names, places, nodes, progress)
}
