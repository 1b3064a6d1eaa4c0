//! Answer 1 for a text that is too long.
ghost use Rattle.both_texts.specs.code.Lengths.{LengthsTold};

use forest::limits::{RESPONSE_BYTES, SCRIPT_BYTES};
use outcome::{NONE, Outcome, RESPONSE, SCRIPT, refusal};
use script::answers::{ACCEPTED, TOO_LONG};

// Answer 1 for the first of two texts that is too long, by their lengths; number 0 where neither is.
pub fn length_answer(script: usize, response: usize) -> Outcome
    ensures { LengthsTold script response result }
{
    if script > SCRIPT_BYTES {
        return refusal(TOO_LONG, SCRIPT, script);
    }
    if response > RESPONSE_BYTES {
        return refusal(TOO_LONG, RESPONSE, response);
    }
    refusal(ACCEPTED, NONE, 0)
}
