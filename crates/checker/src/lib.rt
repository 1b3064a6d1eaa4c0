//! The checker: a script, a response, a list of points and a budget, and one answer.
//! The verdict on two texts of right sizes: what reading them, deriving the bodies and evaluating the constraints give, in their order.
#![tactic(auto)]

pub mod exports;
mod judge;
mod reading;
mod sizes;
pub mod stepping;

ghost use Rattle.outcome.specs.Checked.{Answered, Checked};
ghost use Rattle.outcome.specs.Located.{AnswerGiven, TextsAnswerGiven};

use crate::judge::judge_texts;
use crate::reading::texts_told;
use crate::sizes::size_answer;
use accepting::area::blank_area;
use both_texts::located::locate;
use outcome::{Answer, Outcome, Weighed, no_totals, unweighed};
use script::answers::ACCEPTED;

// The answer for any texts, points and budget, with the totals; the area shows the derivations after 0, 14 and 15.
fn weigh(script: &[u8], response: &[u8], points: &[u64], budget: u64, shown: &mut [u16]) -> Weighed
    ensures { Checked script.now response.now points.now budget shown.old
        result.outcome shown.new result.totals }
{
    let size = size_answer(script, response, points, shown.len());
    blank_area(shown);
    if size.number != ACCEPTED {
        return unweighed(size);
    }
    judge_texts(script, response, points, budget, shown)
}

// The same answer without the totals.
pub fn check(
    script: &[u8],
    response: &[u8],
    points: &[u64],
    budget: u64,
    shown: &mut [u16],
) -> Outcome
    ensures { Answered script.now response.now points.now budget shown.old result shown.new }
{
    let weighed = weigh(script, response, points, budget, shown);
    weighed.outcome
}

// The same answer with the end of the word at its place, and the place's line and column, zeros where it carries none; and with the totals.
pub fn answer(
    script: &[u8],
    response: &[u8],
    points: &[u64],
    budget: u64,
    shown: &mut [u16],
) -> Answer
    ensures { AnswerGiven script.now response.now points.now budget shown.old result shown.new }
{
    let found = weigh(script, response, points, budget, shown);
    let outcome = found.outcome;
    let totals = found.totals;
    Answer {
        outcome,
        location: locate(script, response, outcome),
        totals,
    }
}

// The answer that the two texts give by themselves, 1 to 12, or 0 where both pass, with the same three numbers.
pub fn read(script: &[u8], response: &[u8]) -> Answer
    ensures { TextsAnswerGiven script.now response.now result }
{
    let told = texts_told(script, response);
    Answer {
        outcome: told,
        location: locate(script, response, told),
        totals: no_totals(),
    }
}
