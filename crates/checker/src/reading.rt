//! The two texts' own answer.
ghost use Rattle.std.specs.Prelude.{◌≡◌};
ghost use Rattle.std.proofs.Math.Option.{none as nothing};
ghost use Rattle.words.specs.Limits.{response_limits};
ghost use Rattle.names.specs.code.Lookup.{Names};
ghost use Rattle.outcome.specs.Checked.{TextsTold, length_answer};
ghost use Rattle.both_texts.specs.code.Both.{Rooms};

use both_texts::lengths::length_answer;
use both_texts::read_texts;
use both_texts::tables::{in_tables, no_names, no_places};
use outcome::{NONE, Outcome, refusal};
use script::answers::ACCEPTED;
use words::response_limits;

// The own answer of texts that are not too long, in tables with room for the nodes and the forms of both.
fn told_in(
    script: &[u8],
    response: &[u8],
    names: &mut [u8],
    nodes: &mut [u64],
    forms: &mut [u64],
) -> Outcome
    requires response_value { length_answer script.now response.now ≡ nothing }
    requires table { Names names.old }
    requires rooms { Rooms response_limits script.now response.now nodes.old forms.old }
    ensures { TextsTold script.now response.now result }
{
    let mut places = no_places();
    let limits = response_limits();
    let told = read_texts(script, response, limits, names, &mut places, nodes, forms);
    if told.outcome.number != ACCEPTED {
        return told.outcome;
    }
    refusal(ACCEPTED, NONE, 0)
}

// The texts' own answer: 1 to 12, or 0 where both pass, in tables that fit them.
pub(crate) fn texts_told(script: &[u8], response: &[u8]) -> Outcome
    ensures { TextsTold script.now response.now result }
{
    let long = length_answer(script.len(), response.len());
    if long.number != ACCEPTED {
        return long;
    }
    in_tables(script, response, &mut no_names(), |names, nodes, forms| {
        told_in(script, response, names, nodes, forms)
    })
}
