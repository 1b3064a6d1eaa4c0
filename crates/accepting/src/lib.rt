//! The two texts and the derivations of all bodies, through answer 13, in tables and an area that the caller lends.
#![tactic(auto)]

pub mod area;

ghost use Rattle.std.specs.Prelude.{◌≡◌};
ghost use Rattle.outcome.specs.Derived.{blank_area, no_totals};
ghost use Rattle.both_texts.specs.code.Both.{Lent};
ghost use Rattle.verdicts.specs.code.Derive.{Derivable};
ghost use Rattle.accepting.specs.code.Bodies.{BodiesDerived, TextsAnswered};

use crate::area::blank_area;
use both_texts::read_texts;
use outcome::{Outcome, RESPONSE, Weighed, no_totals, refusal, unweighed};
use script::Progress;
use script::answers::{ACCEPTED, NO_DERIVATION};
use script::places::offset_of;
use verdicts::derive::derive_all;
use words::Limits;

// The answer on two texts and their bodies, whose number is 0 where every body is derived, with the totals; and what the script has said.
#[derive(Clone, Copy)]
pub struct TextsWeighed {
    pub weighed: Weighed,
    pub progress: Progress,
}

// The answer on the bodies of texts that pass: 13 at the first word of the first body that its grammar does not derive, after which the area shows nothing; or
// 0, after which it shows the least derivation of each, and the totals say what these weigh.
fn derive_bodies(
    places: &[u64],
    nodes: &[u64],
    forms: &[u64],
    progress: Progress,
    shown: &mut [u16],
) -> Weighed
    requires { Derivable places.now nodes.now forms.now progress shown.old no_totals }
    ensures { BodiesDerived places.now nodes.now forms.now progress shown.old result shown.new }
{
    let mut totals = no_totals();
    let function = derive_all(places, nodes, forms, progress, shown, &mut totals);
    if function == progress.functions {
        return Weighed {
            outcome: refusal(ACCEPTED, RESPONSE, 0),
            totals,
        };
    }
    blank_area(shown);
    unweighed(Outcome {
        number: NO_DERIVATION,
        text: RESPONSE,
        place: offset_of(places, function),
        second: function,
        units: 0,
    })
}

// Reads a script, and a response to it within limits, and derives its bodies: the tables hold both texts and the area, which shows nothing before, shows the
// least derivation of each body, and the totals say what these weigh; or the answer is 2 to 13, and the area shows nothing.
pub fn accept(
    script: &[u8],
    response: &[u8],
    limits: Limits,
    names: &mut [u8],
    places: &mut [u64],
    nodes: &mut [u64],
    forms: &mut [u64],
    shown: &mut [u16],
) -> TextsWeighed
    requires lent { Lent limits script.now response.now names.old places.old nodes.old forms.old }
    requires shown_value { shown.old ≡ blank_area }
    ensures { TextsAnswered limits script.now response.now names.new places.new nodes.new
        forms.new result shown.new }
{
    let told = read_texts(script, response, limits, names, places, nodes, forms);
    let progress = told.progress;
    if told.outcome.number != ACCEPTED {
        return TextsWeighed {
            weighed: unweighed(told.outcome),
            progress,
        };
    }
    TextsWeighed {
        weighed: derive_bodies(places, nodes, forms, progress, shown),
        progress,
    }
}
