//! What a node of a term stands for.
ghost use Rattle.std.specs.Prelude.{◌≡◌, cond, ℕ, ◌+◌, ◌≤◌, ◌<◌};
ghost use Rattle.term_nodes.specs.Terms.{constant, cut, decimal, pattern};
ghost use Rattle.operators.specs.Sorts.{max_width};
ghost use Rattle.lexemes.specs.code.Table.{code_at, value_at, width_at};
ghost use Rattle.names.specs.Scopes.{View};
ghost use Rattle.names.specs.code.Lookup.{bytes_at};
ghost use Rattle.names.specs.code.Nodes.{NodeAt, NodeMeans, PatternAt, is_pattern_head, pattern_kind, word_by};

use crate::meanings::{NOTHING, known_as, symbol_means};
use crate::spelled::bytes_at;
use crate::{Meaning, Seen};
use lexemes::codes::{BOOL, CONSTANT, VARIABLE};
use lexemes::{LITERAL, OPEN, SYMBOL, code_at, value_at, width_at};
use operators::ones;
use operators::operators::EXTRACT;
use operators::rules::MAX_WIDTH;
use term_nodes::is_constant;
use terms::codes::{
    ANY_ARGUMENT, ANY_LITERAL, KINDS, LITERAL as LITERAL_KIND, OPERATOR, code_with, cut_value,
};
use word_kinds::decimals::decimal_value;

// The code of `(_ extract i j)`.
const CUT: u64 = OPERATOR + KINDS * EXTRACT as u64;

// Whether a node is `(Constant σ)` or `(Variable σ)`, by its first word, the word that says what it is and the code of that.
fn is_pattern(first: usize, head: usize, code: u64) -> bool
    ensures { result ≡ is_pattern_head first head code }
{
    (first < head) & ((code == CONSTANT) | (code == VARIABLE))
}

// The kind of `(Constant σ)` or `(Variable σ)`, by the code of the word that says which it is.
fn pattern_kind(code: u64) -> u64
    ensures { result ≡ pattern_kind code }
{
    if code == VARIABLE {
        ANY_ARGUMENT
    } else {
        ANY_LITERAL
    }
}

// What `(Constant σ)` or `(Variable σ)` stands for.
fn pattern_means(lexemes: &[u64], head: usize) -> Meaning
    requires { PatternAt lexemes.now head }
    ensures { (given : PatternAt lexemes.now head) (view : View)
        → NodeMeans view (pattern given.at given.constant given.sort given.held) result }
{
    let kind = pattern_kind(code_at(lexemes, head));
    let sort = code_at(lexemes, head + 1);
    if sort == OPEN {
        return known_as(code_with(kind, value_at(lexemes, head + 4)), 0);
    }
    Meaning {
        known: sort == BOOL,
        code: code_with(kind, 0),
        value: 0,
    }
}

// What a `#x` or `#b` word stands for.
fn literal_means(lexemes: &[u64], word: usize) -> Meaning
    requires { width_at lexemes.now word ≤ max_width }
    ensures { (view : View)
        → NodeMeans view (constant word (width_at lexemes.now word) (value_at lexemes.now word)) result }
{
    known_as(
        code_with(LITERAL_KIND, width_at(lexemes, word)),
        value_at(lexemes, word),
    )
}

// What a constant `(_ bvN n)` stands for, by the word `bvN`.
fn decimal_means(text: &[u8], lexemes: &[u64], word: usize) -> Meaning
    requires { 0 < code_at lexemes.now word }
    ensures { (view : View) (at : ℕ)
        → NodeMeans view (decimal at word (bytes_at text.now lexemes.now word) (value_at lexemes.now (word + 1))) result }
{
    let width = value_at(lexemes, word + 1);
    if (width < 1) | (width > MAX_WIDTH) {
        return known_as(NOTHING, 0);
    }
    match decimal_value(bytes_at(text, lexemes, word)) {
        Some(value) if value <= ones(width) => known_as(code_with(LITERAL_KIND, width), value),
        _ => known_as(NOTHING, 0),
    }
}

// What `(_ extract i j)` stands for, by the word that is i.
fn cut_means(lexemes: &[u64], word: usize) -> Meaning
    requires { 0 < code_at lexemes.now word }
    ensures { (view : View) (at : ℕ)
        → NodeMeans view (cut at word (value_at lexemes.now word) (value_at lexemes.now (word + 1))) result }
{
    let high = value_at(lexemes, word);
    let low = value_at(lexemes, word + 1);
    if (low <= high) & (high < MAX_WIDTH) {
        return known_as(CUT, cut_value(high, low));
    }
    known_as(NOTHING, 0)
}

// What a node stands for, by its first word and the word that says what it is.
pub fn node_means(
    names: &[u8],
    seen: Seen,
    text: &[u8],
    lexemes: &[u64],
    first: usize,
    head: usize,
) -> Meaning
    requires { NodeAt names.now seen text.now lexemes.now first head }
    ensures { (given : NodeAt names.now seen text.now lexemes.now first head)
        → NodeMeans given.view given.node result }
{
    let code = code_at(lexemes, head);
    if is_pattern(first, head, code) {
        return pattern_means(lexemes, head);
    }
    if is_constant(first, head, code) {
        return decimal_means(text, lexemes, head);
    }
    if code >= SYMBOL {
        return symbol_means(names, seen, code, bytes_at(text, lexemes, head));
    }
    if code == LITERAL {
        return literal_means(lexemes, head);
    }
    if first < head {
        return cut_means(lexemes, head);
    }
    known_as(NOTHING, 0)
}

// The word of a node at which a name stands that is not known: that of σ in `(Constant σ)` and `(Variable σ)`, else the word that says what the node
// is; `nowhere` where its name is known.
pub fn unknown_word(
    known: bool,
    lexemes: &[u64],
    first: usize,
    head: usize,
    nowhere: usize,
) -> usize
    ensures { result ≡ cond known nowhere (word_by first head (code_at lexemes.now head)) }
{
    if known {
        return nowhere;
    }
    if is_pattern(first, head, code_at(lexemes, head)) {
        return head + 1;
    }
    head
}
