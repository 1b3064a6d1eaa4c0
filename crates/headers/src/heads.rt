//! The tests of a head.
ghost use Rattle.std.specs.Prelude.{◌≡◌};
ghost use Rattle.written_sorts.specs.code.Headers.{HeaderAt};
ghost use Rattle.names.specs.code.New.{Few};
ghost use Rattle.forest.specs.Limits.{allowed};
ghost use Rattle.headers.specs.code.Heads.{HeadAt, HeadLimited, NamesHead, NamesOwn, first_row, grown_by, own_row};

use forest::limits;
use forest::numbers::least;
use lexemes::next_at;
use names::Scope;
use names::new::{new_name, new_pairs};
use names::spelled::bytes_at;
use names::table::{ARGUMENTS, DEFINED, FUNCTIONS, OWN_ARGUMENTS, put_name};
use term_nodes::rule_limits::item_past;
use written_sorts::Fault;
use written_sorts::headers::header_place;
use written_sorts::places::sort_of;

// The least word past a limit in the head of the command at a word: its ninth argument, or the width of a sort; `nowhere` where there is none.
pub fn head_past(lexemes: &[u64], at: usize, nowhere: usize) -> usize
    requires { HeaderAt lexemes.now at }
    ensures { (p : HeaderAt lexemes.now at) → HeadLimited p allowed nowhere result }
{
    let arguments = next_at(lexemes, at + 2);
    let close = next_at(lexemes, arguments) - 1;
    let ninth = item_past(lexemes, arguments + 1, close, limits::ARGUMENTS, nowhere);
    let wide = header_place(lexemes, at, Fault::TooWide, nowhere);
    least(ninth, wide)
}

// The row of a command's own name.
fn own_row(scope: Scope, synthesized: bool) -> usize
    requires { Few scope }
    ensures { result ≡ own_row synthesized scope }
{
    if synthesized {
        FUNCTIONS + scope.functions
    } else {
        DEFINED + scope.defined
    }
}

// The row of its first argument.
fn first_row(scope: Scope, synthesized: bool) -> usize
    requires { Few scope }
    ensures { result ≡ first_row synthesized scope }
{
    if synthesized {
        OWN_ARGUMENTS + limits::ARGUMENTS * scope.functions
    } else {
        ARGUMENTS
    }
}

// The scope with the command's own name in it.
fn grown(scope: Scope, synthesized: bool) -> Scope
    requires { Few scope }
    ensures { result ≡ grown_by synthesized scope }
{
    let mut later = scope;
    if synthesized {
        later.functions += 1;
    } else {
        later.defined += 1;
    }
    later
}

// Puts the name of the command at a word into its row, with its word and the sort of its result; returns the word of the name where it is reserved or taken, else `nowhere`.
fn own_name(
    text: &[u8],
    lexemes: &[u64],
    names: &mut [u8],
    scope: Scope,
    synthesized: bool,
    at: usize,
    nowhere: usize,
) -> usize
    requires { HeadAt text.now lexemes.now names.old scope synthesized at }
    ensures { NamesOwn text.now lexemes.now names.old scope synthesized at nowhere names.new result }
{
    let row = own_row(scope, synthesized);
    let result = next_at(lexemes, next_at(lexemes, at + 2));
    let sort = sort_of(lexemes, result) as u8;
    let place = new_name(text, lexemes, names, scope, row, 0, at + 2, nowhere);
    put_name(names, row, sort, at + 2, bytes_at(text, lexemes, at + 2));
    place
}

// Puts the name and the arguments of the command at a word into their rows; returns the least word whose name is reserved, taken or no sort's; `nowhere` where
// there is none.
pub fn head_names(
    text: &[u8],
    lexemes: &[u64],
    names: &mut [u8],
    scope: Scope,
    synthesized: bool,
    at: usize,
    nowhere: usize,
) -> usize
    requires { HeadAt text.now lexemes.now names.old scope synthesized at }
    ensures { NamesHead text.now lexemes.now names.old scope synthesized at nowhere names.new result }
{
    let arguments = next_at(lexemes, at + 2);
    let close = next_at(lexemes, arguments) - 1;
    let later = grown(scope, synthesized);
    let first = first_row(scope, synthesized);
    let own = own_name(text, lexemes, names, scope, synthesized, at, nowhere);
    let within = new_pairs(
        text,
        lexemes,
        names,
        later,
        first,
        arguments + 1,
        close,
        nowhere,
    );
    let sorts = header_place(lexemes, at, Fault::Unknown, nowhere);
    least(own, least(within, sorts))
}
