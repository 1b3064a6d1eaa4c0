//! The lists of a file, each followed in the grammar of its function.
ghost use Rattle.std.specs.Prelude.{◌<◌};
ghost use Rattle.forest.specs.Limits.{most_functions};
ghost use Rattle.one_function.specs.code.OneFunction.{OneHeld};
ghost use Rattle.auditing.specs.code.Lists.{AllFollowed, FileHeld, FollowsIn, FollowsList, InFile, ListPasses};

use blocks::reading::{copy_list, list_at, list_length};
use following::follows;
use forest::limits::{FUNCTIONS, LIST};
use one_function::rows_from;
use script::Progress;
use script::places::{body_of, form_rows_of, forms_of, rules_of};
use terms::size_at;

// Whether a list of rules derives the body of a function that stands in the tables.
fn follow_list(places: &[u64], nodes: &[u64], forms: &[u64], function: usize, list: &[u16]) -> bool
    requires { OneHeld places.now nodes.now forms.now function }
    ensures { FollowsList places.now nodes.now forms.now function list.now result }
{
    let rules = rules_of(places, function);
    let sides = rows_from(
        forms,
        forms_of(places, function),
        form_rows_of(places, function),
    );
    let node = body_of(places, function);
    let body = rows_from(nodes, node, size_at(nodes, node));
    follows(rules, sides, body, list)
}

// Whether the list that a file holds for a function derives the function's body; one that is longer than a list can be does not.
fn follow_one(file: &[u8], places: &[u64], nodes: &[u64], forms: &[u64], function: usize) -> bool
    requires { InFile file.now places.now nodes.now forms.now function }
    ensures { FollowsIn file.now places.now nodes.now forms.now function result }
{
    let count = list_length(file, function);
    if count > LIST {
        return false;
    }
    let mut list = [0; LIST];
    copy_list(file, list_at(file, function), &mut list[..count]);
    follow_list(places, nodes, forms, function, &list[..count])
}

// Whether the list of a function is as it must be: it derives the body, or there is none where the function is absent.
fn list_passes(
    file: &[u8],
    places: &[u64],
    nodes: &[u64],
    forms: &[u64],
    progress: Progress,
    function: usize,
) -> bool
    requires { FileHeld file.now places.now nodes.now forms.now progress × (function < most_functions) }
    ensures { ListPasses file.now places.now nodes.now forms.now progress function result }
{
    if function >= progress.functions {
        return list_length(file, function) == 0;
    }
    follow_one(file, places, nodes, forms, function)
}

// The first function whose list is not as it must be.
pub(crate) fn follow_all(
    file: &[u8],
    places: &[u64],
    nodes: &[u64],
    forms: &[u64],
    progress: Progress,
) -> Option<usize>
    requires { FileHeld file.now places.now nodes.now forms.now progress }
    ensures { AllFollowed file.now places.now nodes.now forms.now progress result }
{
    for function in 0..FUNCTIONS {
        if !list_passes(file, places, nodes, forms, progress, function) {
            return Some(function);
        }
    }
    None
}
