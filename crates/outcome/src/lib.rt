//! What the checker answers for a script, a response, a list of points and a budget, and what follows from that.
//! What holds of a script that passes: its rules, bodies and constraints have their sorts, and so has every term that its grammars derive.
//! What is sure of a script and a response that pass: the sizes and sorts that the search for derivations and the evaluation rely on.
#![tactic(auto)]

ghost use Rattle.std.specs.Prelude.{◌≡◌};
ghost use Rattle.outcome.specs.Checked.{refusal};
ghost use Rattle.outcome.specs.Derived.{no_totals};

use forest::limits::FUNCTIONS;

// An answer speaks of the script.
pub const SCRIPT: usize = 0;

// Of the response.
pub const RESPONSE: usize = 1;

// Of the list of points.
pub const POINTS: usize = 2;

// Of none of them, or of the area.
pub const NONE: usize = 3;

// The number of an answer; which text it speaks of (0 the script, 1 the response, 2 the points, 3 none or the area); its place and its second number; and the
// units spent.
#[derive(Clone, Copy)]
pub struct Outcome {
    pub number: usize,
    pub text: usize,
    pub place: usize,
    pub second: usize,
    pub units: u64,
}

// What an answer carries of its place: the end of the word there, the line and the column; zeros where it carries nothing.
#[derive(Clone, Copy)]
pub struct Location {
    pub end: usize,
    pub line: usize,
    pub column: usize,
}

// An answer, and what the list of each function weighs; 0 where none is shown.
#[derive(Clone, Copy)]
pub struct Weighed {
    pub outcome: Outcome,
    pub totals: [u64; FUNCTIONS],
}

// An answer with what it carries, and the same totals.
#[derive(Clone, Copy)]
pub struct Answer {
    pub outcome: Outcome,
    pub location: Location,
    pub totals: [u64; FUNCTIONS],
}

// An answer that names a text and a place.
pub fn refusal(number: usize, text: usize, place: usize) -> Outcome
    ensures { result ≡ refusal number text place }
{
    Outcome {
        number,
        text,
        place,
        second: 0,
        units: 0,
    }
}

// The totals where no list is shown.
pub fn no_totals() -> [u64; FUNCTIONS]
    ensures { result ≡ no_totals }
{
    [0; FUNCTIONS]
}

// An answer after which no list is shown.
pub fn unweighed(outcome: Outcome) -> Weighed
    ensures { result ≡ record { outcome = outcome; totals = no_totals } }
{
    Weighed {
        outcome,
        totals: no_totals(),
    }
}
