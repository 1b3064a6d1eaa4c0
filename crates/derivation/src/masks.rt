//! Sets of non-terminals as masks: at most 16, a bit for each.
ghost use Rattle.std.specs.Prelude.{◌≡◌, ◌<◌};
ghost use Rattle.forest.specs.Limits.{most_non_terminals};
ghost use Rattle.derivation.specs.code.Masks.{has, Puts};

// Whether a non-terminal is in the set of a mask.
pub fn has(mask: u64, nonterminal: u64) -> bool
    requires { nonterminal < most_non_terminals }
    ensures { result ≡ has mask nonterminal }
{
    (mask >> nonterminal) & 1 == 1
}

// The set with a non-terminal put in.
pub fn put(mask: u64, nonterminal: u64) -> u64
    requires { nonterminal < most_non_terminals }
    ensures { Puts mask nonterminal result }
{
    mask | (1 << nonterminal)
}
