//! The texts of a file without a fault: their own answer, or that on the lists.
ghost use Rattle.words.specs.Limits.{response_limits};
ghost use Rattle.names.specs.code.Lookup.{Names};
ghost use Rattle.evidence.specs.Evidence.{Audited};
ghost use Rattle.both_texts.specs.code.Both.{Rooms};
ghost use Rattle.auditing.specs.code.Files.{FileTexts};

use crate::lists::follow_all;
use both_texts::read_texts;
use both_texts::tables::{in_tables, no_names, no_places};
use outcome::{NONE, Outcome, refusal};
use script::answers::{ACCEPTED, NOT_FOLLOWED};
use words::response_limits;

// The answer on a file without a fault, whose texts are these, in tables with room for the nodes and the forms of both.
fn audit_in(
    file: &[u8],
    script: &[u8],
    response: &[u8],
    names: &mut [u8],
    nodes: &mut [u64],
    forms: &mut [u64],
) -> Outcome
    requires file_texts { FileTexts file.now script.now response.now }
    requires table { Names names.old }
    requires rooms { Rooms response_limits script.now response.now nodes.old forms.old }
    ensures { Audited file.now result }
{
    let mut places = no_places();
    let limits = response_limits();
    let told = read_texts(script, response, limits, names, &mut places, nodes, forms);
    if told.outcome.number != ACCEPTED {
        return told.outcome;
    }
    match follow_all(file, &places, nodes, forms, told.progress) {
        Some(function) => refusal(NOT_FOLLOWED, NONE, function),
        None => refusal(ACCEPTED, NONE, 0),
    }
}

// The same in tables that fit the texts.
pub(crate) fn audit_texts(file: &[u8], script: &[u8], response: &[u8]) -> Outcome
    requires { FileTexts file.now script.now response.now }
    ensures { Audited file.now result }
{
    in_tables(script, response, &mut no_names(), |names, nodes, forms| {
        audit_in(file, script, response, names, nodes, forms)
    })
}
