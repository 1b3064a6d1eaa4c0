//! The writing of an evidence file (request E12): the two texts, and the derivations that are found for their bodies.
#![tactic(auto)]

ghost use Rattle.std.specs.Prelude.{◌≡◌};
ghost use Rattle.words.specs.Limits.{response_limits};
ghost use Rattle.both_texts.specs.code.Both.{Rooms};
ghost use Rattle.evidence.specs.Evidence.{Filed};
ghost use Rattle.filing.specs.code.Filing.{Derivable, ListsFound};

use accepting::accept;
use accepting::area::no_lists;
use blocks::writing::{file_length, rules_in, write_file};
use both_texts::answers::unlocated;
use both_texts::lengths::length_answer;
use both_texts::located::locate;
use both_texts::tables::{in_tables, no_names, no_places};
use outcome::{Answer, Location, NONE, Weighed, refusal};
use script::answers::{ACCEPTED, AREA_SIZE};
use words::response_limits;

// An answer, and how long the file is that was written; 0 where none was.
#[derive(Clone, Copy)]
pub struct Written {
    pub answer: Answer,
    pub length: usize,
}

// An answer after which nothing is written.
fn unwritten(answer: Answer) -> Written
    ensures { result ≡ record { answer = answer; length = 0 } }
{
    Written { answer, length: 0 }
}

// The answer on two texts that are not too long and on their bodies, in tables with room for the nodes and the forms of both; the area shows the derivations
// where its number is 0.
fn derive_in(
    script: &[u8],
    response: &[u8],
    shown: &mut [u16],
    nodes: &mut [u64],
    forms: &mut [u64],
) -> Weighed
    requires derivable { Derivable script.now response.now shown.old }
    requires rooms { Rooms response_limits script.now response.now nodes.old forms.old }
    ensures { ListsFound script.now response.now result shown.new }
{
    let mut names = no_names();
    let mut places = no_places();
    let limits = response_limits();
    let told = accept(
        script,
        response,
        limits,
        &mut names,
        &mut places,
        nodes,
        forms,
        shown,
    );
    told.weighed
}

// The same in tables that fit the texts.
fn derive_texts(script: &[u8], response: &[u8], shown: &mut [u16]) -> Weighed
    requires { Derivable script.now response.now shown.old }
    ensures { ListsFound script.now response.now result shown.new }
{
    in_tables(script, response, shown, |shown, nodes, forms| {
        derive_in(script, response, shown, nodes, forms)
    })
}

// The file of two texts and the lists that the area shows, where the answer on them is 0 and there is room for it.
fn write_found(
    script: &[u8],
    response: &[u8],
    found: Weighed,
    shown: &[u16],
    area: &mut [u8],
) -> Written
    requires { ListsFound script.now response.now found shown.now }
    ensures { Filed script.now response.now area.old result.answer result.length area.new }
{
    let outcome = found.outcome;
    let totals = found.totals;
    if outcome.number != ACCEPTED {
        return unwritten(Answer {
            outcome,
            location: locate(script, response, outcome),
            totals,
        });
    }
    if area.len() < file_length(script.len(), response.len(), rules_in(shown)) {
        return unwritten(unlocated(refusal(AREA_SIZE, NONE, area.len())));
    }
    let length = write_file(area, script, response, shown);
    Written {
        answer: Answer {
            outcome: refusal(ACCEPTED, NONE, 0),
            location: Location {
                end: 0,
                line: 0,
                column: 0,
            },
            totals,
        },
        length,
    }
}

// Writes the evidence file of a script and a response, both of any bytes: the answer is 0, or that of the texts through 13, or 17 where the area is too short.
pub fn write_evidence(script: &[u8], response: &[u8], area: &mut [u8]) -> Written
    ensures { Filed script.now response.now area.old result.answer result.length area.new }
{
    let long = length_answer(script.len(), response.len());
    if long.number != ACCEPTED {
        return unwritten(unlocated(long));
    }
    let mut shown = no_lists();
    let found = derive_texts(script, response, &mut shown);
    write_found(script, response, found, &shown, area)
}
