//! What is found in a text, by the numbers of the table of answers.
ghost use Rattle.std.specs.Prelude.{◌≡◌};
ghost use Rattle.words.specs.Answers.{fault_number, number_of, passed, place_of};

use crate::Reading;
use word_kinds::Fault;

// A text is too long.
pub const TOO_LONG: u8 = 1;

// A bad word.
pub const BAD_WORD: u8 = 2;

// A bracket is closed too often, or never.
pub const BRACKET: u8 = 3;

// Past a limit.
pub const PAST_LIMIT: u8 = 4;

// Not carried.
pub const NOT_CARRIED: u8 = 6;

// The number of a fault in the table of answers.
pub fn fault_number(fault: Fault) -> u8
    ensures { result ≡ fault_number fault }
{
    match fault {
        Fault::TooLong => TOO_LONG,
        Fault::BadWord => BAD_WORD,
        Fault::Bracket => BRACKET,
        Fault::PastLimit => PAST_LIMIT,
        Fault::NotCarried => NOT_CARRIED,
    }
}

// The number of the answer to what was found; 0 where the whole text was read.
pub fn number_of(found: Reading) -> u8
    ensures { result ≡ number_of found }
{
    match found {
        Ok(_) => 0,
        Err(refusal) => fault_number(refusal.fault),
    }
}

// The place of the refusal; 0 where the whole text was read.
pub fn place_of(found: Reading) -> usize
    ensures { result ≡ place_of found }
{
    match found {
        Ok(_) => 0,
        Err(refusal) => refusal.place,
    }
}

// How many words were passed.
pub fn passed_of(found: Reading) -> usize
    ensures { result ≡ passed found }
{
    match found {
        Ok(count) => count,
        Err(refusal) => refusal.passed,
    }
}
