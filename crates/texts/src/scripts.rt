//! A script, from its bytes.
ghost use Rattle.std.specs.Prelude.{◌≡◌, ◌≤◌, length, min};
ghost use Rattle.forest.specs.Limits.{script_words};
ghost use Rattle.lexemes.specs.code.Table.{row_width};
ghost use Rattle.term_nodes.specs.code.Table.{row_width as rawWidth};
ghost use Rattle.words.specs.Limits.{script_limits};
ghost use Rattle.script.specs.Outcome.{second_of};
ghost use Rattle.texts.specs.code.Texts.{Placed, RowEach, script_rows};
ghost use Rattle.texts.specs.code.Scripts.{Lent, ScriptRead, in_offsets};

use crate::lexed::offset_of;
use crate::text_words::read_lexemes;
use crate::{MIDDLE_SCRIPT, SHORT_SCRIPT};
use forest::limits::SCRIPT_WORDS;
use lexemes::ROW;
use script_reader::Step;
use script_reader::scripts::{nothing_said, read_script};
use words::answers::{number_of, passed_of, place_of};
use words::script_limits;

// The refusal of a word of a script, by its number and its offset.
fn refused_word(number: usize, place: usize) -> Step
    ensures { (result.number ≡ number) × (result.place ≡ place) × (result.second ≡ 0) }
{
    let progress = nothing_said();
    Step {
        number,
        place,
        second: 0,
        progress,
    }
}

// The offset of the word that a second number speaks of; 0 where it speaks of none.
fn second_offset(text: &[u8], lexemes: &[u64], count: usize, word: usize) -> usize
    requires { Placed text.now lexemes.now count }
    ensures { result ≡ second_of text.now word }
{
    if word == 0 {
        return 0;
    }
    offset_of(text, lexemes, count, word)
}

// A step with the offsets of its words in their place.
fn step_in(text: &[u8], lexemes: &[u64], count: usize, step: Step) -> Step
    requires { Placed text.now lexemes.now count }
    ensures { result ≡ in_offsets text.now step }
{
    let progress = step.progress;
    Step {
        number: step.number,
        place: offset_of(text, lexemes, count, step.place),
        second: second_offset(text, lexemes, count, step.second),
        progress,
    }
}

// Reads a script with tables that have room for its lexemes and for what is gathered of it: the others hold what it says, or it is refused at an offset.
fn script_in(
    text: &[u8],
    lexemes: &mut [u64],
    names: &mut [u8],
    raw: &mut [u64],
    places: &mut [u64],
    nodes: &mut [u64],
    forms: &mut [u64],
) -> Step
    requires lent { Lent text.now names.old places.old nodes.old forms.old }
    requires row_each { RowEach script_limits text.now row_width lexemes.old }
    requires row_each_2 { RowEach script_limits text.now rawWidth raw.old }
    ensures { ScriptRead text.now names.new places.new nodes.new forms.new result }
{
    let reading = read_lexemes(text, script_limits(), lexemes);
    if number_of(reading) != 0 {
        return refused_word(number_of(reading) as usize, place_of(reading));
    }
    let count = passed_of(reading);
    let step = read_script(
        text,
        &lexemes[..ROW * count],
        names,
        raw,
        places,
        nodes,
        forms,
        count,
    );
    step_in(text, lexemes, count, step)
}

// Reads a script of at most `N` words, with tables that have room for so many.
fn script_of<const N: usize>(
    text: &[u8],
    names: &mut [u8],
    places: &mut [u64],
    nodes: &mut [u64],
    forms: &mut [u64],
) -> Step
    requires lent { Lent text.now names.old places.old nodes.old forms.old }
    requires few_rows { N ≤ script_words }
    requires few { min (length text.now) script_words ≤ N }
    requires rows { N ≡ script_rows (length text.now) }
    ensures { ScriptRead text.now names.new places.new nodes.new forms.new result }
{
    let mut lexemes = [[0; ROW]; N];
    let mut raw = [[0; term_nodes::ROW]; N];
    script_in(
        text,
        lexemes.as_flattened_mut(),
        names,
        raw.as_flattened_mut(),
        places,
        nodes,
        forms,
    )
}

// Reads a script: the tables hold what it says, or it is refused at an offset.
pub fn read_script_text(
    text: &[u8],
    names: &mut [u8],
    places: &mut [u64],
    nodes: &mut [u64],
    forms: &mut [u64],
) -> Step
    requires { Lent text.now names.old places.old nodes.old forms.old }
    ensures { ScriptRead text.now names.new places.new nodes.new forms.new result }
{
    if text.len() <= SHORT_SCRIPT {
        return script_of::<SHORT_SCRIPT>(text, names, places, nodes, forms);
    }
    if text.len() <= MIDDLE_SCRIPT {
        return script_of::<MIDDLE_SCRIPT>(text, names, places, nodes, forms);
    }
    script_of::<SCRIPT_WORDS>(text, names, places, nodes, forms)
}
