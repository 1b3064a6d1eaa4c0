//! The sizes of what is lent: answer 1.
ghost use Rattle.checker.specs.code.Sizes.{SizesTold};

use both_texts::lengths::length_answer;
use forest::limits::{AREA, POINT_NUMBERS};
use outcome::{NONE, Outcome, POINTS, refusal};
use script::answers::{ACCEPTED, TOO_LONG};

// Answer 1 for the first of the script, the response, the points and the area that is too long or not of its size; number 0 where there is none.
pub(crate) fn size_answer(script: &[u8], response: &[u8], points: &[u64], area: usize) -> Outcome
    ensures { SizesTold script.now response.now points.now area result }
{
    let texts = length_answer(script.len(), response.len());
    if texts.number != ACCEPTED {
        return texts;
    }
    if points.len() > POINT_NUMBERS {
        return refusal(TOO_LONG, POINTS, points.len());
    }
    if area != AREA {
        return refusal(TOO_LONG, NONE, area);
    }
    texts
}
