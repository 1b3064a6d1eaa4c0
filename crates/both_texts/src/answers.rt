//! Answers with what they carry, and in their sixteen numbers.
ghost use Rattle.std.specs.Prelude.{◌≡◌};
ghost use Rattle.outcome.specs.Located.{answer_numbers, unlocated};

use outcome::{Answer, Location, Outcome, no_totals};

// An answer that carries nothing, and after which no list is shown.
pub fn unlocated(outcome: Outcome) -> Answer
    ensures { result ≡ unlocated outcome }
{
    Answer {
        outcome,
        location: Location {
            end: 0,
            line: 0,
            column: 0,
        },
        totals: no_totals(),
    }
}

// Writes an answer in its sixteen numbers.
pub fn write_answer(found: Answer, numbers: &mut [u64; 16])
    ensures { numbers.new ≡ answer_numbers found }
{
    let outcome = found.outcome;
    let location = found.location;
    let totals = found.totals;
    *numbers = [
        outcome.number as u64,
        outcome.text as u64,
        outcome.place as u64,
        outcome.second as u64,
        outcome.units,
        location.end as u64,
        location.line as u64,
        location.column as u64,
        totals[0],
        totals[1],
        totals[2],
        totals[3],
        totals[4],
        totals[5],
        totals[6],
        totals[7],
    ];
}
