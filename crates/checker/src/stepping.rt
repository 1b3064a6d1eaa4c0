//! The list of steps of an accepted body.
ghost use Rattle.std.specs.Prelude.{◌≡◌, length};
ghost use Rattle.words.specs.Limits.{response_limits};
ghost use Rattle.outcome.specs.Derived.{no_totals};
ghost use Rattle.outcome.specs.StepList.{StepList, step_numbers, step_refusal};
ghost use Rattle.both_texts.specs.code.Both.{Lent, Rooms};
ghost use Rattle.checker.specs.code.Stepping.{AnsweredFrom, BodiesAnswered, BodiesStand, BodyListed, HeldAnswer, ListGiven};

use crate::judge::judge_points;
use crate::sizes::size_answer;
use accepting::area::no_lists;
use accepting::{TextsWeighed, accept};
use both_texts::answers::unlocated;
use both_texts::located::locate;
use both_texts::tables::{in_tables, no_names, no_places};
use forest::limits::{AREA, NODES};
use outcome::{Answer, NONE, Outcome, refusal, unweighed};
use script::Progress;
use script::answers::{ACCEPTED, AREA_SIZE, UNLISTED};
use script::places::body_of;
use script_reader::scripts::nothing_said;
use steps::list::{STEP, uses_defined, write_steps};
use terms::size_at;
use words::response_limits;

// How many numbers the lent area has to have.
const NUMBERS: usize = STEP * NODES;

// An answer, and how many steps were written.
#[derive(Clone, Copy)]
pub struct Listed {
    pub answer: Answer,
    pub count: usize,
}

// An answer that speaks of no text, without steps.
fn refused(number: usize, place: usize) -> Listed
    ensures { result ≡ record { answer = step_refusal number place; count = 0 } }
{
    Listed {
        answer: unlocated(refusal(number, NONE, place)),
        count: 0,
    }
}

// An answer that comes before anything is read.
fn unread(outcome: Outcome) -> TextsWeighed
    ensures { result.weighed ≡ record { outcome = outcome; totals = no_totals } }
{
    TextsWeighed {
        weighed: unweighed(outcome),
        progress: nothing_said(),
    }
}

// The answer on the sizes, the two texts and their bodies, whose number is 0 where every body is derived. Nobody asks for the derivations: the area that shows
// them is not used behind this call.
fn accept_alone(
    script: &[u8],
    response: &[u8],
    points: &[u64],
    names: &mut [u8],
    places: &mut [u64],
    nodes: &mut [u64],
    forms: &mut [u64],
) -> TextsWeighed
    requires { Lent response_limits script.now response.now names.old places.old nodes.old forms.old }
    ensures { BodiesAnswered script.now response.now points.now names.new places.new
        nodes.new result }
{
    let size = size_answer(script, response, points, AREA);
    if size.number != ACCEPTED {
        return unread(size);
    }
    let mut shown = no_lists();
    let limits = response_limits();
    accept(
        script, response, limits, names, places, nodes, forms, &mut shown,
    )
}

// The checker's answer with what it carries, from that on the bodies, whose texts stand in the tables.
fn answer_held(
    script: &[u8],
    response: &[u8],
    points: &[u64],
    budget: u64,
    names: &[u8],
    places: &[u64],
    nodes: &[u64],
    told: TextsWeighed,
) -> Answer
    requires { BodiesAnswered script.now response.now points.now names.now places.now nodes.now told }
    ensures { AnsweredFrom script.now response.now points.now budget told result }
{
    let found = judge_points(names, places, nodes, told, points, budget);
    let outcome = found.outcome;
    let totals = found.totals;
    Answer {
        outcome,
        location: locate(script, response, outcome),
        totals,
    }
}

// Writes the steps of a function's body, which stands in the tables; returns how many, 0 where there is no such function or its body uses a `define-fun`.
fn list_body(
    places: &[u64],
    nodes: &[u64],
    progress: Progress,
    function: usize,
    area: &mut [u64],
) -> usize
    requires { BodiesStand places.now nodes.now progress area.old }
    ensures { BodyListed places.now nodes.now progress function area.old area.new result }
{
    if function >= progress.functions {
        return 0;
    }
    let node = body_of(places, function);
    let past = node + size_at(nodes, node);
    if uses_defined(nodes, node, past) {
        return 0;
    }
    write_steps(nodes, node, past, area, 0)
}

// The steps of the body of a function where the answer is 0, from the tables that hold both texts.
fn list_held(
    places: &[u64],
    nodes: &[u64],
    progress: Progress,
    found: Answer,
    function: usize,
    area: &mut [u64],
) -> Listed
    requires { HeldAnswer places.now nodes.now progress found area.old }
    ensures { ListGiven places.now nodes.now progress found function area.old result area.new }
{
    if found.outcome.number != ACCEPTED {
        return Listed {
            answer: found,
            count: 0,
        };
    }
    let count = list_body(places, nodes, progress, function, area);
    if count == 0 {
        return refused(UNLISTED, function);
    }
    Listed {
        answer: found,
        count,
    }
}

// The steps of the body of a function, in tables with room for the nodes and the forms of both texts.
fn list_in(
    script: &[u8],
    response: &[u8],
    points: &[u64],
    budget: u64,
    function: usize,
    area: &mut [u64],
    nodes: &mut [u64],
    forms: &mut [u64],
) -> Listed
    requires area_len { length area.old ≡ step_numbers }
    requires rooms { Rooms response_limits script.now response.now nodes.old forms.old }
    ensures { StepList script.now response.now points.now budget function area.old
        result.answer result.count area.new }
{
    let mut names = no_names();
    let mut places = no_places();
    let told = accept_alone(
        script,
        response,
        points,
        &mut names,
        &mut places,
        nodes,
        forms,
    );
    let found = answer_held(
        script, response, points, budget, &names, &places, nodes, told,
    );
    list_held(&places, nodes, told.progress, found, function, area)
}

// The same, of the function of an index, in tables that fit the texts.
fn list_texts(
    script: &[u8],
    response: &[u8],
    points: &[u64],
    budget: u64,
    index: usize,
    area: &mut [u64],
) -> Listed
    requires { length area.old ≡ step_numbers }
    ensures { StepList script.now response.now points.now budget index area.old
        result.answer result.count area.new }
{
    in_tables(script, response, area, |area, nodes, forms| {
        list_in(script, response, points, budget, index, area, nodes, forms)
    })
}

// The steps of the body of a function, by its number in script order, where the response is accepted: they are written from the tables of the check.
pub fn step_list(
    script: &[u8],
    response: &[u8],
    points: &[u64],
    budget: u64,
    function: usize,
    area: &mut [u64],
) -> Listed
    ensures { StepList script.now response.now points.now budget function area.old
        result.answer result.count area.new }
{
    if area.len() != NUMBERS {
        return refused(AREA_SIZE, area.len());
    }
    list_texts(script, response, points, budget, function, area)
}
