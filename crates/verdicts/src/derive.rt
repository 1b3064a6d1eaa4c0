//! Derivations of the bodies of all functions, in script order.
ghost use Rattle.verdicts.specs.code.Derive.{Derivable, Judges, JudgesOne, OneDerivable};

use forest::numbers::put_entry;
use one_function::rows_from;
use script::Progress;
use script::places::{body_of, form_rows_of, forms_of, rules_of};
use searching::derive;
use terms::size_at;

// What the least derivation of a function's body by its grammar weighs, if there is one; the function's list in the area shows it.
fn derive_one(
    places: &[u64],
    nodes: &[u64],
    forms: &[u64],
    function: usize,
    shown: &mut [u16],
) -> Option<u64>
    requires { OneDerivable places.now nodes.now forms.now function shown.old }
    ensures { JudgesOne places.now nodes.now forms.now function shown.old shown.new
        result }
{
    let rules = rules_of(places, function);
    let sides = rows_from(
        forms,
        forms_of(places, function),
        form_rows_of(places, function),
    );
    let node = body_of(places, function);
    let body = rows_from(nodes, node, size_at(nodes, node));
    derive(rules, sides, body, function, shown)
}

// Shows the least derivation of each function's body in the area, with what it weighs among the totals, up to the first function whose grammar derives its body
// by none; returns that function, or how many functions there are.
pub fn derive_all(
    places: &[u64],
    nodes: &[u64],
    forms: &[u64],
    progress: Progress,
    shown: &mut [u16],
    totals: &mut [u64],
) -> usize
    requires { Derivable places.now nodes.now forms.now progress shown.old totals.old }
    ensures { Judges places.now nodes.now forms.now progress shown.old totals.old
        shown.new totals.new result }
{
    for function in 0..progress.functions {
        let Some(total) = derive_one(places, nodes, forms, function, shown) else {
            return function;
        };
        put_entry(totals, function, total);
    }
    progress.functions
}
