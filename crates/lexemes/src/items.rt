//! Items of a list: how many there are, and where each stands.
ghost use Rattle.std.specs.Prelude.{◌≡◌};
ghost use Rattle.forest.specs.Forest.{count};
ghost use Rattle.lexemes.specs.code.Standing.{Between, Reached};

use crate::next_at;

// How many items stand from a word to the bracket that closes their list.
pub fn count_items(lexemes: &[u64], first: usize, close: usize) -> usize
    requires { Between lexemes.now first close }
    ensures { (b : Between lexemes.now first close) → result ≡ count b.items }
{
    let mut found = 0;
    let mut word = first;
    while word < close {
        word = next_at(lexemes, word);
        found += 1;
    }
    found
}

// The word at which item n stands, of those from a word to the bracket that closes their list; that bracket where there are no more than n.
pub fn item_at(lexemes: &[u64], first: usize, close: usize, n: usize) -> usize
    requires { Between lexemes.now first close }
    ensures { (b : Between lexemes.now first close) → Reached lexemes.now first close n b result }
{
    let mut word = first;
    for _passed in 0..n {
        if word >= close {
            return word;
        }
        word = next_at(lexemes, word);
    }
    word
}
