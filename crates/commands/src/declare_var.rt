//! The command `declare-var`, with its tests in their order.
ghost use Rattle.commands.specs.code.DeclareVar.{Adding, Adds, Declares, Declaring, FindsLimit, FindsName};
ghost use Rattle.written_sorts.specs.code.Places.{SortAt};
ghost use Rattle.std.specs.Prelude.{◌+◌};

use crate::term_tests::command_past;
use forest::limits;
use forest::numbers::least;
use names::Scope;
use names::new::new_name;
use names::spelled::bytes_at;
use names::table::{ARGUMENTS, VARIABLES, put_name};
use script::answers::{ACCEPTED, NAME, PAST_LIMIT, SORT, verdict};
use script::{Command, Verdict};
use written_sorts::Fault;
use written_sorts::places::{sort_of, sort_place};

// The word past a limit: the command's where there are as many variables as there may be, or the width of its sort.
fn limit_place(lexemes: &[u64], variables: usize, at: usize, nowhere: usize) -> usize
    requires { SortAt lexemes.now (at + 3) }
    ensures { FindsLimit lexemes.now variables at nowhere result }
{
    let wide = sort_place(lexemes, at + 3, Fault::TooWide, nowhere);
    least(
        command_past(variables, limits::VARIABLES, at, nowhere),
        wide,
    )
}

// The word of a name at fault: that of the variable where it is reserved or taken, or of an unknown sort.
fn name_place(text: &[u8], lexemes: &[u64], names: &[u8], command: Command) -> usize
    requires { Declaring text.now lexemes.now names.now command.progress command.at command.nowhere }
    ensures { FindsName text.now lexemes.now names.now command result }
{
    let scope = Scope {
        variables: command.progress.variables,
        defined: command.progress.defined,
        functions: command.progress.functions,
        first: ARGUMENTS,
        arguments: 0,
    };
    let at = command.at;
    let nowhere = command.nowhere;
    let name = new_name(text, lexemes, names, scope, ARGUMENTS, 0, at + 2, nowhere);
    least(name, sort_place(lexemes, at + 3, Fault::Unknown, nowhere))
}

// Puts the variable, its word and its sort into a row.
fn add_variable(text: &[u8], lexemes: &[u64], names: &mut [u8], row: usize, at: usize)
    requires { Adding text.now lexemes.now names.old row at }
    ensures { Adds text.now lexemes.now names.old row at names.new }
{
    let sort = sort_of(lexemes, at + 3) as u8;
    put_name(names, row, sort, at + 2, bytes_at(text, lexemes, at + 2));
}

// The `declare-var` at a word: its variable stands in its row where it is within the limits.
pub fn declare_var(text: &[u8], lexemes: &[u64], names: &mut [u8], command: Command) -> Verdict
    requires { Declaring text.now lexemes.now names.old command.progress command.at command.nowhere }
    ensures { Declares text.now lexemes.now names.old command names.new result }
{
    let variables = command.progress.variables;
    let at = command.at;
    let nowhere = command.nowhere;
    let limit = limit_place(lexemes, variables, at, nowhere);
    if limit < nowhere {
        return verdict(PAST_LIMIT, limit, 0);
    }
    let name = name_place(text, lexemes, names, command);
    add_variable(text, lexemes, names, VARIABLES + variables, at);
    if name < nowhere {
        return verdict(NAME, name, 0);
    }
    let sort = sort_place(lexemes, at + 3, Fault::Empty, nowhere);
    if sort < nowhere {
        return verdict(SORT, sort, 0);
    }
    verdict(ACCEPTED, 0, 0)
}
