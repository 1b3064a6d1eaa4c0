//! Where the place of an answer stands in its text.
ghost use Rattle.std.specs.Prelude.{◌≡◌};
ghost use Rattle.outcome.specs.Located.{carries, located, location_in};
ghost use Rattle.both_texts.specs.code.Located.{Short, Locatable};

use outcome::{Location, Outcome, SCRIPT};
use script::answers::{GRAMMAR, HEADER, NO_DERIVATION, TOO_LONG};
use words::positions::{end_of, position};

// Whether an answer of this number carries the end, the line and the column of its place.
fn carries(number: usize) -> bool
    ensures { result ≡ carries number }
{
    ((TOO_LONG < number) & (number <= GRAMMAR)) | (number == HEADER) | (number == NO_DERIVATION)
}

// The end, the line and the column of a place of a text.
fn location_in(text: &[u8], place: usize) -> Location
    requires { Short text.now }
    ensures { result ≡ location_in text.now place }
{
    let found = position(text, place);
    Location {
        end: end_of(text, place),
        line: found.line,
        column: found.column,
    }
}

// What an answer on a script and a response carries.
pub fn locate(script: &[u8], response: &[u8], outcome: Outcome) -> Location
    requires { Locatable script.now response.now outcome }
    ensures { result ≡ located script.now response.now outcome }
{
    if !carries(outcome.number) {
        return Location {
            end: 0,
            line: 0,
            column: 0,
        };
    }
    if outcome.text == SCRIPT {
        return location_in(script, outcome.place);
    }
    location_in(response, outcome.place)
}
