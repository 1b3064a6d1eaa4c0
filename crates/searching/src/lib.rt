//! The search for derivations: whether the rules of a grammar derive a body, and by which rules.
//!
//! `rules`, `forms` and `body` are the tables of crate `derivation`.
#![tactic(auto)]

ghost use Rattle.std.specs.Prelude.{◌≡◌, ◌+◌, ◌≤◌, length, replicate};
ghost use Rattle.std.proofs.lemmas.List.Edits.{sets};
ghost use Rattle.searching.specs.code.Derive.{Decides, DerivePre};
ghost use Rattle.forest.specs.Limits.{list_size, unused};

use forest::limits::{LIST, NODES, NON_TERMINALS, UNUSED};
use masks::MARKS;
use matching::PER_WEIGHT;
use terms::ROW;

mod filling;
mod masks;
mod matching;
mod showing;

// How many numbers the table of masks has room for.
const MARKED: usize = NODES * MARKS;

// How many numbers the table of choices has room for.
const CHOSEN: usize = NODES * NON_TERMINALS;

// A table with one number everywhere.
fn filled<T: Copy, const N: usize>(number: T) -> [T; N]
    ensures { length result ≡ N }
{
    [number; N]
}

// A list of one function with every entry unused.
fn blank() -> [u16; LIST]
    ensures { result ≡ replicate list_size unused }
{
    [UNUSED; LIST]
}

// Copies a list into a table of such numbers, from `at` on.
fn copy<T: Copy>(list: &[T], area: &mut [T], at: usize)
    requires { at + length list.now ≤ length area.old }
    ensures { area.new ≡ sets area.old at list.now }
{
    area[at..at + list.len()].copy_from_slice(list);
}

// What the least derivation of the body weighs in all, if there is one; the function's list in the area gets it, and its other entries are unused.
pub fn derive(
    rules: &[u64],
    forms: &[u64],
    body: &[u64],
    function: usize,
    area: &mut [u16],
) -> Option<u64>
    requires { DerivePre rules.now forms.now body.now function area.old }
    ensures { Decides rules.now forms.now body.now function area.old area.new
        result }
{
    let long = body.len() / ROW * MARKS;
    let mut masks: [u64; MARKED] = filled(0);
    let mut choices: [u16; CHOSEN] = filled(0);
    let mut list = blank();
    let rank = showing::show(
        rules,
        forms,
        body,
        &mut masks[..long],
        &mut choices,
        &mut list,
    )?;
    copy(&list, area, LIST * function);
    Some(rank / PER_WEIGHT)
}
