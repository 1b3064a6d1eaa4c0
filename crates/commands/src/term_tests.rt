//! What the commands that say a term have in common: their number, and the tests of the term.
ghost use Rattle.std.specs.Prelude.{◌≡◌};
ghost use Rattle.script.specs.Limits.{command_past};
ghost use Rattle.commands.specs.code.TermTests.{Judges, Judging};

use crate::TermTest;
use bodies::read::{body_names, body_sort};
use forest::numbers::least;
use script::Verdict;
use script::answers::{ACCEPTED, NAME, SORT, verdict};

// The word of a command where there are `most` of its kind before it, else `nowhere`.
pub(crate) fn command_past(before: usize, most: usize, at: usize, nowhere: usize) -> usize
    ensures { result ≡ command_past nowhere most before at }
{
    if before < most { nowhere } else { at }
}

// Tests the names of a term, then its sort, each after the word at fault of its kind in the head of its command; writes its forms.
pub(crate) fn judge_body(
    text: &[u8],
    lexemes: &[u64],
    names: &[u8],
    raw: &mut [u64],
    places: &[u64],
    nodes: &mut [u64],
    test: TermTest,
) -> Verdict
    requires { Judging text.now lexemes.now names.now raw.old places.now nodes.old test }
    ensures { Judges text.now lexemes.now names.now raw.old places.now nodes.old
        test raw.new nodes.new result }
{
    let nowhere = test.target.nowhere;
    let unknown = body_names(text, lexemes, names, raw, nodes, test.seen, test.target);
    let name = least(test.named, unknown);
    if name < nowhere {
        return verdict(NAME, name, 0);
    }
    let misfit = body_sort(
        raw,
        nodes,
        places,
        test.target.count,
        test.target.base,
        test.sort,
        nowhere,
    );
    let fault = least(test.empty, misfit);
    if fault < nowhere {
        return verdict(SORT, fault, 0);
    }
    verdict(ACCEPTED, 0, test.target.count)
}
