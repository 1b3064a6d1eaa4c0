//! What the payload of an evidence file says: its lengths, its texts and its lists, and whether the file is filled as it must be.
ghost use Rattle.std.specs.Prelude.{◌≡◌, ◌+◌, ◌*◌, ◌-◌, ◌<◌, ◌≤◌, ◌^◌, MatchOption, drop, length, take};
ghost use Rattle.std.proofs.Math.Option.{none, some};
ghost use Rattle.forest.specs.Limits.{most_functions};
ghost use Rattle.blocks.specs.Blocks.{payload_in};
ghost use Rattle.blocks.specs.code.Below.{Below};
ghost use Rattle.blocks.specs.Layout.{file_fault, list_at, list_length_in, misfilled, number_in, pairs, response_length_in, rules_before, script_length_in, zeros};

use crate::{BLOCK, HEAD, PAY, first_wrong, pay_at};
use forest::limits::FUNCTIONS;

// The number that two payload bytes hold, low byte first.
fn pair_at(file: &[u8], place: usize) -> u16
    requires { place + 1 < 2 ^ 64 }
    ensures { result ≡ number_in (payload_in file.now) place 2 }
{
    u16::from_le_bytes([pay_at(file, place), pay_at(file, place + 1)])
}

// The number that four payload bytes hold, low byte first.
fn four_at(file: &[u8], place: usize) -> u32
    requires { place + 3 < 2 ^ 64 }
    ensures { result ≡ number_in (payload_in file.now) place 4 }
{
    u32::from_le_bytes([
        pay_at(file, place),
        pay_at(file, place + 1),
        pay_at(file, place + 2),
        pay_at(file, place + 3),
    ])
}

// The length of the script, as a file says it.
pub fn script_length(file: &[u8]) -> usize
    ensures { Below (script_length_in file.now) 4294967296 result }
{
    four_at(file, 0) as usize
}

// The length of the response, as a file says it.
pub fn response_length(file: &[u8]) -> usize
    ensures { Below (response_length_in file.now) 4294967296 result }
{
    four_at(file, 4) as usize
}

// How many rules the list of function `function` has, as a file says it.
pub fn list_length(file: &[u8], function: usize) -> usize
    requires { function < most_functions }
    ensures { Below (list_length_in file.now function) 65536 result }
{
    usize::from(pair_at(file, 8 + 2 * function))
}

// How many rules the lists of the functions before `function` have.
fn rules_before(file: &[u8], function: usize) -> usize
    requires { function ≤ most_functions }
    ensures { Below (rules_before file.now function) 524289 result }
{
    let mut rules = 0;
    for k in 0..function {
        rules += list_length(file, k);
    }
    rules
}

// Where the list of function `function` begins in the payload; of the number of functions, where the last list ends.
pub fn list_at(file: &[u8], function: usize) -> usize
    requires { function ≤ most_functions }
    ensures { result ≡ list_at file.now function }
{
    HEAD + script_length(file) + response_length(file) + 2 * rules_before(file, function)
}

// Whether the payload bytes from `from` up to `end` are zeros.
fn zeros_between(file: &[u8], from: usize, end: usize) -> bool
    requires { end ≤ length (payload_in file.now) }
    ensures { result ≡ zeros (take (end - from) (drop from (payload_in file.now))) }
{
    (from..end).all(|place| pay_at(file, place) == 0)
}

// The block that lengths past the file, a spare block or a wrong filling refuse, in a file of right blocks.
fn filling_fault(file: &[u8]) -> Option<usize>
    ensures { MatchOption result (misfilled file.now ≡ none) (λ block. misfilled file.now ≡ some block) }
{
    let whole = file.len() / BLOCK;
    let needed = list_at(file, FUNCTIONS);
    if needed > PAY * whole {
        return Some(0);
    }
    let last = (needed - 1) / PAY;
    if !zeros_between(file, needed, PAY * (last + 1)) {
        return Some(last);
    }
    if PAY * (last + 1) < PAY * whole {
        return Some(last + 1);
    }
    None
}

// The block that answer 21 names; none where the file is as it must be.
pub fn file_fault(file: &[u8]) -> Option<usize>
    ensures { MatchOption result (file_fault file.now ≡ none) (λ block. file_fault file.now ≡ some block) }
{
    first_wrong(file).or_else(|| filling_fault(file))
}

// Copies the payload bytes from `from` on, as many as `out` has room for.
pub fn copy_part(file: &[u8], from: usize, out: &mut [u8])
    requires { from + length out.old ≤ length (payload_in file.now) }
    ensures { out.new ≡ take (length out.old) (drop from (payload_in file.now)) }
{
    for (i, byte) in out.iter_mut().enumerate() {
        *byte = pay_at(file, from + i);
    }
}

// Copies the rules that the payload bytes from `from` on hold, as many as `out` has room for.
pub fn copy_list(file: &[u8], from: usize, out: &mut [u16])
    requires { from + 2 * length out.old ≤ length (payload_in file.now) }
    ensures { out.new ≡ pairs (take (2 * length out.old) (drop from (payload_in file.now))) }
{
    for (i, rule) in out.iter_mut().enumerate() {
        *rule = pair_at(file, from + 2 * i);
    }
}
