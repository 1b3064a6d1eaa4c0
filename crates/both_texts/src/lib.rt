//! The two texts: what reading a script and a response to it gives, through answer 12, and what an answer on them carries. Nothing here searches for
//! derivations.
#![tactic(auto)]

pub mod answers;
pub mod lengths;
pub mod located;
pub mod tables;

ghost use Rattle.std.specs.Prelude.{◌≡◌};
ghost use Rattle.outcome.specs.Checked.{refusal_with};
ghost use Rattle.outcome.specs.code.Texts.{script_text};
ghost use Rattle.both_texts.specs.code.Both.{Lent, TextsRead};

use outcome::{Outcome, RESPONSE, SCRIPT, refusal};
use script::Progress;
use script::answers::ACCEPTED;
use script_reader::Step;
use texts::responses::read_response_text;
use texts::scripts::read_script_text;
use words::Limits;

// The answer on two texts, whose number is 0 where both pass; and what the script has said.
#[derive(Clone, Copy)]
pub struct Told {
    pub outcome: Outcome,
    pub progress: Progress,
}

// The answer on a script that is refused.
fn script_refusal(step: Step) -> Outcome
    ensures { result ≡ refusal_with step.number script_text step.place step.second }
{
    Outcome {
        number: step.number,
        text: SCRIPT,
        place: step.place,
        second: step.second,
        units: 0,
    }
}

// Reads a script, and a response to it within limits: the tables hold both, or one is refused at an offset.
pub fn read_texts(
    script: &[u8],
    response: &[u8],
    limits: Limits,
    names: &mut [u8],
    places: &mut [u64],
    nodes: &mut [u64],
    forms: &mut [u64],
) -> Told
    requires { Lent limits script.now response.now names.old places.old nodes.old forms.old }
    ensures { TextsRead limits script.now response.now names.new places.new nodes.new
        forms.new result }
{
    let step = read_script_text(script, names, places, nodes, forms);
    let progress = step.progress;
    if step.number != ACCEPTED {
        return Told {
            outcome: script_refusal(step),
            progress,
        };
    }
    let verdict = read_response_text(response, limits, names, places, nodes, progress);
    Told {
        outcome: refusal(verdict.number, RESPONSE, verdict.place),
        progress,
    }
}
