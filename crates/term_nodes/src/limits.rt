//! The limits on the nodes of a term and on its constants.
ghost use Rattle.std.specs.Prelude.{◌≡◌, ◌+◌};
ghost use Rattle.lexemes.specs.code.Table.{code_at, value_at};
ghost use Rattle.term_nodes.specs.code.Limits.{ConstantsPast, NodePast, TermNodes, WordPast, past_by};

use crate::{first_at, head_at, is_constant};
use forest::numbers::least;
use lexemes::codes::LONG_DECIMAL;
use lexemes::{NUMERAL, code_at, value_at};
use operators::rules::MAX_WIDTH;

// The first word of the node past the first `most` of those in the rows from `first` on to `end`, numerals not counted; `nowhere` where there are not so many.
fn node_past(
    lexemes: &[u64],
    raw: &[u64],
    first: usize,
    end: usize,
    most: usize,
    nowhere: usize,
) -> usize
    requires { TermNodes lexemes.now raw.now first end }
    ensures { (p : TermNodes lexemes.now raw.now first end) → NodePast p most nowhere result }
{
    let mut counted = 0;
    for node in first..end {
        let at = first_at(raw, node);
        let head = head_at(raw, node);
        if (head != at) | (code_at(lexemes, head) != NUMERAL) {
            if counted == most {
                return at;
            }
            counted += 1;
        }
    }
    nowhere
}

// The word past a limit of the node that begins at a word, by the word that says what it is: that word, where it is `bvN` of too many digits, or the one behind
// it, where that is a width too large; `nowhere` for any other node.
fn constant_past(lexemes: &[u64], at: usize, head: usize, nowhere: usize) -> usize
    ensures { result ≡ past_by nowhere at head (code_at lexemes.now head) (value_at lexemes.now (head + 1)) }
{
    let code = code_at(lexemes, head);
    if !is_constant(at, head, code) {
        return nowhere;
    }
    if code == LONG_DECIMAL {
        return head;
    }
    if value_at(lexemes, head + 1) > MAX_WIDTH {
        return head + 1;
    }
    nowhere
}

// The least word past a limit of the constants among the nodes in the rows from `first` on to `end`; `nowhere` where there is none.
fn constants_past(lexemes: &[u64], raw: &[u64], first: usize, end: usize, nowhere: usize) -> usize
    requires { TermNodes lexemes.now raw.now first end }
    ensures { (p : TermNodes lexemes.now raw.now first end) → ConstantsPast p nowhere result }
{
    let mut place = nowhere;
    for node in first..end {
        let past = constant_past(lexemes, first_at(raw, node), head_at(raw, node), nowhere);
        place = least(place, past);
    }
    place
}

// The least word past a limit of the nodes in the rows from `first` on to `end`: that of the node past the first `most`, or that of a constant.
pub fn word_past(
    lexemes: &[u64],
    raw: &[u64],
    first: usize,
    end: usize,
    most: usize,
    nowhere: usize,
) -> usize
    requires { TermNodes lexemes.now raw.now first end }
    ensures { (p : TermNodes lexemes.now raw.now first end) → WordPast p most nowhere result }
{
    least(
        node_past(lexemes, raw, first, end, most, nowhere),
        constants_past(lexemes, raw, first, end, nowhere),
    )
}
