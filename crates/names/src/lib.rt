//! Names in scope: a table of them, what a symbol stands for, and the forms that terms say.
//! New names: whether one is reserved or taken, where a name that is taken was declared, and the names of arguments and non-terminals put in scope.
#![tactic(auto)]

pub mod earlier;
pub mod forms;
mod meanings;
pub mod new;
mod nodes;
pub mod spelled;
pub mod table;

ghost use Rattle.std.specs.Prelude.{◌≡◌, min};

// What a term sees, as rows of the table of names: arguments or variables from row `first` on, and how many of the others there are.
#[derive(Clone, Copy)]
pub struct Seen {
    pub first: usize,
    pub names: usize,
    pub defined: usize,
    pub functions: usize,
    pub non_terminals: usize,
}

// What a node stands for, as the two numbers of a node table, and whether it is known.
#[derive(Clone, Copy)]
pub struct Meaning {
    pub known: bool,
    pub code: u64,
    pub value: u64,
}

// How many names of each kind are in scope: variables, `define-fun`s, synthesized functions, and arguments, which stand from row `first` on.
#[derive(Clone, Copy)]
pub struct Scope {
    pub variables: usize,
    pub defined: usize,
    pub functions: usize,
    pub first: usize,
    pub arguments: usize,
}

// Where the forms of gathered nodes are written: how many of the nodes there are, the row from which on their forms stand, and how many words the text has.
#[derive(Clone, Copy)]
pub struct Target {
    pub count: usize,
    pub base: usize,
    pub nowhere: usize,
}
