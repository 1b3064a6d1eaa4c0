//! The tests of a grammar.
ghost use Rattle.grammars.specs.code.Read.{Declared, DeclaredAt, GrammarAt, LimitsGrammar, ListsTested, NamesDead, NamesGrammar, Naming, Sorting, SortsGrammar};

use crate::listed::{listing_misfit, start_misfit};
use crate::parts::{close_at, groups_at, non_terminals_at, result_at};
use forest::limits;
use forest::numbers::least;
use lexemes::items::{count_items, item_at};
use names::forms::write_forms;
use names::new::new_pairs;
use names::table::NON_TERMINALS;
use names::{Scope, Seen, Target};
use term_faults::bodies::fault_word;
use term_nodes::Gathered;
use term_nodes::rule_limits::item_past;
use term_nodes::rules::gather_rules;
use term_nodes::sizes::count_nodes;
use written_sorts::Fault;
use written_sorts::headers::grammar_place;
use written_sorts::places::sort_of;

// Gathers the rules of the `synth-fun` at a word, and finds the least word past a limit.
pub fn grammar_past(
    lexemes: &[u64],
    at: usize,
    raw: &mut [u64],
    rules: &mut [u64],
    nowhere: usize,
) -> Gathered
    requires { GrammarAt lexemes.now raw.old rules.old at }
    ensures { LimitsGrammar lexemes.now raw.old rules.old at nowhere raw.new rules.new result }
{
    let non_terminals = non_terminals_at(lexemes, at);
    let groups = groups_at(lexemes, at);
    let sorts = grammar_place(lexemes, at, Fault::TooWide, nowhere);
    let listed = item_past(
        lexemes,
        non_terminals + 1,
        close_at(lexemes, non_terminals),
        limits::NON_TERMINALS,
        nowhere,
    );
    let gathered = gather_rules(
        lexemes,
        groups + 1,
        close_at(lexemes, groups),
        raw,
        rules,
        nowhere,
    );
    Gathered {
        row: gathered.row,
        rule: gathered.rule,
        place: least(listed, least(sorts, gathered.place)),
    }
}

// Puts the non-terminals of the `synth-fun` at a word into their rows and writes the forms of its rules, whose nodes are gathered, into theirs; returns the
// least word at fault in a name.
pub fn grammar_names(
    text: &[u8],
    lexemes: &[u64],
    names: &mut [u8],
    raw: &mut [u64],
    forms: &mut [u64],
    scope: Scope,
    at: usize,
    target: Target,
) -> usize
    requires { Naming text.now lexemes.now names.old raw.old forms.old scope at target.count target.base target.nowhere }
    ensures { NamesGrammar text.now lexemes.now names.old raw.old forms.old scope at target
        names.new raw.new forms.new result }
{
    let non_terminals = non_terminals_at(lexemes, at);
    let first = non_terminals + 1;
    let close = close_at(lexemes, non_terminals);
    let seen = Seen {
        first: scope.first,
        names: scope.arguments,
        defined: scope.defined,
        functions: 0,
        non_terminals: count_items(lexemes, first, close),
    };
    let new = new_pairs(
        text,
        lexemes,
        names,
        scope,
        NON_TERMINALS,
        first,
        close,
        target.nowhere,
    );
    let sorts = grammar_place(lexemes, at, Fault::Unknown, target.nowhere);
    count_nodes(raw, target.count);
    let unknown = write_forms(names, seen, text, lexemes, raw, forms, target);
    least(new, least(sorts, unknown))
}

// The least word at fault in the sorts of the grammar of the `synth-fun` at a word; fills in the sorts of its nodes.
pub fn grammar_sorts(
    lexemes: &[u64],
    raw: &[u64],
    forms: &[u64],
    signatures: &[u64],
    column: &mut [u8],
    at: usize,
    nodes: usize,
    nowhere: usize,
) -> usize
    requires { Sorting lexemes.now raw.now forms.now signatures.now column.old at nodes nowhere }
    ensures { SortsGrammar lexemes.now raw.now forms.now signatures.now column.old
        at nodes nowhere column.new result }
{
    let written = grammar_place(lexemes, at, Fault::Empty, nowhere);
    let within = fault_word(raw, forms, signatures, column, nodes, nowhere);
    least(written, within)
}

// The least word at fault in what the grammar of the `synth-fun` at a word declares, `listed` non-terminals, and lists; `nowhere` where there is none.
pub fn lists_misfit(
    text: &[u8],
    lexemes: &[u64],
    names: &[u8],
    at: usize,
    listed: usize,
    nowhere: usize,
) -> usize
    requires { Declared text.now lexemes.now names.now at listed }
    ensures { (p : Declared text.now lexemes.now names.now at listed) → ListsTested p nowhere result }
{
    let non_terminals = non_terminals_at(lexemes, at);
    let groups = groups_at(lexemes, at);
    let sort = sort_of(lexemes, result_at(lexemes, at));
    let start = start_misfit(lexemes, non_terminals, sort, nowhere);
    let again = listing_misfit(text, lexemes, names, groups, listed, nowhere);
    least(start, again)
}

// The declared name of the first non-terminal that derives no term, the one numbered `dead` of the `listed` that the `synth-fun` at a word declares; `nowhere`
// where there is none.
pub fn dead_misfit(lexemes: &[u64], at: usize, dead: usize, listed: usize, nowhere: usize) -> usize
    requires { DeclaredAt lexemes.now at listed }
    ensures { (p : DeclaredAt lexemes.now at listed) → NamesDead p dead nowhere result }
{
    if dead >= listed {
        return nowhere;
    }
    let non_terminals = non_terminals_at(lexemes, at);
    let close = close_at(lexemes, non_terminals);
    item_at(lexemes, non_terminals + 1, close, dead) + 1
}
