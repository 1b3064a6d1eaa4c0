//! The shape and the limits of a `define-fun` in a response.
ghost use Rattle.std.specs.Prelude.{◌≡◌};
ghost use Rattle.lexemes.specs.code.Standing.{ListAt};
ghost use Rattle.response.specs.code.Outlines.{Extras, ListIn, Outlines, body_at};

use bodies::read::body_limit;
use forest::limits::NODES;
use forest::numbers::least;
use headers::heads::head_past;
use lexemes::codes::DEFINE_FUN;
use lexemes::{code_at, next_at};
use script::Verdict;
use script::answers::{ACCEPTED, HEADER, NOT_CARRIED, PAST_LIMIT, SHAPE, verdict};
use shapes::carried::any_uncarried;
use shapes::commands::define_fun_shape;

// The word at which the body of the `define-fun` at a word begins.
pub fn body_word(lexemes: &[u64], at: usize) -> usize
    requires { ListAt lexemes.now at }
    ensures { result ≡ body_at lexemes.now at }
{
    let arguments = next_at(lexemes, at + 2);
    next_at(lexemes, next_at(lexemes, arguments))
}

// Gathers the nodes of the body of the `define-fun` at a word; 6, 5 and 4 of it.
pub fn outline(lexemes: &[u64], raw: &mut [u64], at: usize, nowhere: usize) -> Verdict
    requires { ListIn lexemes.now raw.old at nowhere }
    ensures { Outlines lexemes.now raw.old at nowhere raw.new result }
{
    if code_at(lexemes, at + 1) != DEFINE_FUN {
        return verdict(SHAPE, at, 0);
    }
    if any_uncarried(lexemes, at + 1, next_at(lexemes, at) - 1) {
        return verdict(NOT_CARRIED, at, 0);
    }
    if !define_fun_shape(lexemes, at) {
        return verdict(SHAPE, at, 0);
    }
    let head = head_past(lexemes, at, nowhere);
    let first = body_word(lexemes, at);
    let body = body_limit(lexemes, first, raw, NODES, nowhere);
    let place = least(head, body.place);
    if place < nowhere {
        return verdict(PAST_LIMIT, place, 0);
    }
    verdict(ACCEPTED, place, body.rows)
}

// 6, 5, 4 and 12 of a `define-fun` for which there is no function.
pub fn extra(lexemes: &[u64], raw: &mut [u64], at: usize, nowhere: usize) -> Verdict
    requires { ListIn lexemes.now raw.old at nowhere }
    ensures { Extras lexemes.now raw.old at nowhere result }
{
    let outlined = outline(lexemes, raw, at, nowhere);
    if outlined.number != ACCEPTED {
        return outlined;
    }
    verdict(HEADER, at, 0)
}
