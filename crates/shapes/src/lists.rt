//! Items of the list that stands at a word.
ghost use Rattle.std.specs.Prelude.{◌≡◌, ◌+◌};
ghost use Rattle.forest.specs.Forest.{count};
ghost use Rattle.lexemes.specs.Lists.{is_symbol, item};
ghost use Rattle.lexemes.specs.code.Standing.{ListAt};
ghost use Rattle.shapes.specs.code.Lists.{ItemOf, Long};

use lexemes::items::{count_items, item_at};
use lexemes::{SYMBOL, code_at, next_at};

// How many items a list holds.
pub fn count_in(lexemes: &[u64], list: usize) -> usize
    requires { ListAt lexemes.now list }
    ensures { (here : ListAt lexemes.now list) → result ≡ count here.operands }
{
    count_items(lexemes, list + 1, next_at(lexemes, list) - 1)
}

// The word at which item n of a list stands, which has more than n.
pub fn item_in(lexemes: &[u64], list: usize, n: usize) -> usize
    requires { Long lexemes.now list (n + 1) }
    ensures { (here : ListAt lexemes.now list) → ItemOf here n result }
{
    item_at(lexemes, list + 1, next_at(lexemes, list) - 1, n)
}

// Whether item n of a list, which has more than n, is a symbol.
pub fn symbol_in(lexemes: &[u64], list: usize, n: usize) -> bool
    requires { Long lexemes.now list (n + 1) }
    ensures { (here : ListAt lexemes.now list) → result ≡ is_symbol (item n here.operands) }
{
    code_at(lexemes, item_in(lexemes, list, n)) >= SYMBOL
}
