//! The two texts, the derivations and the points, in their order.
ghost use Rattle.words.specs.Limits.{response_limits};
ghost use Rattle.outcome.specs.Checked.{Checked};
ghost use Rattle.both_texts.specs.code.Both.{Rooms};
ghost use Rattle.checker.specs.code.Judge.{Judgeable, Judging, PointsJudged};

use accepting::area::blank_area;
use accepting::{TextsWeighed, accept};
use both_texts::tables::{in_tables, no_names, no_places};
use outcome::{Weighed, unweighed};
use script::answers::{ACCEPTED, POINTS};
use verdicts::evaluate::evaluate;
use words::response_limits;

// The answer on the points where every body is derived, with the totals, which are 0 after 16; else the answer on the bodies.
pub(crate) fn judge_points(
    names: &[u8],
    places: &[u64],
    nodes: &[u64],
    told: TextsWeighed,
    points: &[u64],
    budget: u64,
) -> Weighed
    requires { Judgeable names.now places.now nodes.now told }
    ensures { PointsJudged names.now places.now nodes.now told points.now budget result }
{
    let weighed = told.weighed;
    if weighed.outcome.number != ACCEPTED {
        return weighed;
    }
    let found = evaluate(names, places, nodes, told.progress, points, budget);
    if found.number == POINTS {
        return unweighed(found);
    }
    let totals = weighed.totals;
    Weighed {
        outcome: found,
        totals,
    }
}

// The answer for texts, points and an area of right sizes, where the area shows nothing, in tables with room for the nodes and the forms of both texts.
fn judge_in(
    script: &[u8],
    response: &[u8],
    points: &[u64],
    budget: u64,
    shown: &mut [u16],
    nodes: &mut [u64],
    forms: &mut [u64],
) -> Weighed
    requires judging { Judging script.now response.now points.now shown.old }
    requires rooms { Rooms response_limits script.now response.now nodes.old forms.old }
    ensures { Checked script.now response.now points.now budget shown.old
        result.outcome shown.new result.totals }
{
    let mut names = no_names();
    let mut places = no_places();
    let limits = response_limits();
    let told = accept(
        script,
        response,
        limits,
        &mut names,
        &mut places,
        nodes,
        forms,
        shown,
    );
    let found = judge_points(&names, &places, nodes, told, points, budget);
    if found.outcome.number == POINTS {
        blank_area(shown);
    }
    found
}

// The answer for texts, points and an area of right sizes, where the area shows nothing, in tables that fit the texts.
pub(crate) fn judge_texts(
    script: &[u8],
    response: &[u8],
    points: &[u64],
    budget: u64,
    shown: &mut [u16],
) -> Weighed
    requires { Judging script.now response.now points.now shown.old }
    ensures { Checked script.now response.now points.now budget shown.old
        result.outcome shown.new result.totals }
{
    in_tables(script, response, shown, |shown, nodes, forms| {
        judge_in(script, response, points, budget, shown, nodes, forms)
    })
}
