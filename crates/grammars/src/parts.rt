//! Where the parts of a `synth-fun` stand.
ghost use Rattle.std.specs.Prelude.{◌≡◌, ◌-◌};
ghost use Rattle.lexemes.specs.code.Standing.{ListAt};
ghost use Rattle.lexemes.specs.code.Table.{next_at};
ghost use Rattle.written_sorts.specs.code.Headers.{SynthFunAt};
ghost use Rattle.grammars.specs.code.Parts.{groups_word, non_terminals_word, result_word};

use lexemes::next_at;

// The word of the function's sort, in the `synth-fun` at a word.
pub fn result_at(lexemes: &[u64], at: usize) -> usize
    requires { SynthFunAt lexemes.now at }
    ensures { result ≡ result_word lexemes.now at }
{
    next_at(lexemes, next_at(lexemes, at + 2))
}

// The word of the list that declares its non-terminals.
pub fn non_terminals_at(lexemes: &[u64], at: usize) -> usize
    requires { SynthFunAt lexemes.now at }
    ensures { result ≡ non_terminals_word lexemes.now at }
{
    next_at(lexemes, result_at(lexemes, at))
}

// The word of the list that has each non-terminal again, with its rules.
pub fn groups_at(lexemes: &[u64], at: usize) -> usize
    requires { SynthFunAt lexemes.now at }
    ensures { result ≡ groups_word lexemes.now at }
{
    next_at(lexemes, non_terminals_at(lexemes, at))
}

// The bracket that closes the list at a word.
pub fn close_at(lexemes: &[u64], list: usize) -> usize
    requires { ListAt lexemes.now list }
    ensures { result ≡ next_at lexemes.now list - 1 }
{
    next_at(lexemes, list) - 1
}
