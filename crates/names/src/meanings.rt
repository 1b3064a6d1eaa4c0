//! What a symbol stands for.
ghost use Rattle.std.specs.Prelude.{true, ◌≡◌};
ghost use Rattle.lexemes.specs.code.Table.{symbol_code};
ghost use Rattle.names.specs.code.Meanings.{Ordinary, Seeing, SymbolMeans};

use crate::table::{DEFINED, FUNCTIONS, NON_TERMINALS, find_name, sort_in};
use crate::{Meaning, Seen};
use lexemes::codes::{EXTRACT, FALSE, FIRST_OPERATOR, OTHER, TRUE};
use operators::operators::OPERATORS;
use terms::codes;
use terms::codes::{FUNCTION, KINDS, LITERAL, NAME, NON_TERMINAL, OPERATOR, code_with};

// The code of a node that stands for nothing: an operator that there is none of.
pub const NOTHING: u64 = OPERATOR + KINDS * OPERATORS as u64;

// What is known, by the two numbers of a node table.
pub fn known_as(code: u64, value: u64) -> Meaning
    ensures { result ≡ record { known = true; code = code; value = value } }
{
    Meaning {
        known: true,
        code: code,
        value: value,
    }
}

// What a symbol that is no literal and no operator stands for.
fn name_means(names: &[u8], seen: Seen, word: &[u8]) -> Meaning
    requires seeing { Seeing names.now seen }
    requires ordinary { Ordinary word.now }
    ensures { (given : Seeing names.now seen) → SymbolMeans given.view word.now result }
{
    let name = find_name(names, seen.first, seen.names, word);
    if name < seen.names {
        return known_as(
            code_with(NAME, sort_in(names, seen.first + name)),
            name as u64,
        );
    }
    let defined = find_name(names, DEFINED, seen.defined, word);
    if defined < seen.defined {
        return known_as(codes::DEFINED, defined as u64);
    }
    let function = find_name(names, FUNCTIONS, seen.functions, word);
    if function < seen.functions {
        return known_as(FUNCTION, function as u64);
    }
    let non_terminal = find_name(names, NON_TERMINALS, seen.non_terminals, word);
    if non_terminal < seen.non_terminals {
        return known_as(NON_TERMINAL, non_terminal as u64);
    }
    Meaning {
        known: false,
        code: NOTHING,
        value: 0,
    }
}

// What a symbol of a term stands for, by its code and its bytes.
pub fn symbol_means(names: &[u8], seen: Seen, code: u64, word: &[u8]) -> Meaning
    requires seeing { Seeing names.now seen }
    requires code_value { code ≡ symbol_code word.now }
    ensures { (given : Seeing names.now seen) → SymbolMeans given.view word.now result }
{
    if (code == TRUE) | (code == FALSE) {
        return known_as(LITERAL, (code == TRUE) as u64);
    }
    if code == EXTRACT {
        return known_as(NOTHING, 0);
    }
    if (code >= FIRST_OPERATOR) & (code < OTHER) {
        return known_as(code_with(OPERATOR, code - FIRST_OPERATOR), 0);
    }
    name_means(names, seen, word)
}
