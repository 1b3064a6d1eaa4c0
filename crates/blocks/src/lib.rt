//! The blocks of an evidence file: 510 bytes of payload each, and two that hold their sum. What the payload says, and the writing of a file.
#![tactic(auto)]

pub mod reading;
pub mod writing;

ghost use Rattle.std.specs.Prelude.{◌≡◌, ◌+◌, ◌≤◌, MatchOption, drop, get_or, length, take};
ghost use Rattle.std.proofs.Math.Option.{none, some};
ghost use Rattle.blocks.specs.Blocks.{blocks_in, first_wrong, payload_in, pay_size, right_block, sum_from};

// How many bytes a block has, and how many of them are payload.
pub(crate) const BLOCK: usize = 512;

pub(crate) const PAY: usize = 510;

// How many payload bytes hold the lengths of the texts and of the lists.
pub const HEAD: usize = 24;

// The sum is held modulo this.
pub(crate) const MODULUS: usize = 65521;

// Where the next payload byte is written: its index in the file, how many payload bytes the open block has, and their sum.
#[derive(Clone, Copy)]
pub(crate) struct Place {
    pub(crate) at: usize,
    pub(crate) filled: usize,
    pub(crate) sum: usize,
}

// The sum of each payload byte times its position from 1, in the block that starts at a byte of the file.
fn sum_at(file: &[u8], start: usize) -> usize
    requires { start + pay_size ≤ length file.now }
    ensures { result ≡ sum_from 1 (take pay_size (drop start file.now)) }
{
    let mut sum = 0;
    for (i, byte) in file[start..start + PAY].iter().enumerate() {
        sum += (i + 1) * usize::from(*byte);
    }
    sum
}

// Whether block `block` of a file is whole and holds its sum.
fn right_block(file: &[u8], block: usize) -> bool
    ensures { result ≡ right_block file.now block }
{
    if block >= file.len() / BLOCK {
        return false;
    }
    let start = BLOCK * block;
    let sum = sum_at(file, start) % MODULUS;
    let held = u16::from_le_bytes([file[start + PAY], file[start + PAY + 1]]);
    usize::from(held) == sum
}

// How many blocks a file has, a last one that is cut short among them; an empty file has one.
pub fn blocks_in(file: &[u8]) -> usize
    ensures { result ≡ blocks_in file.now }
{
    file.len().div_ceil(BLOCK).max(1)
}

// The first block that is cut short or has a wrong sum.
pub(crate) fn first_wrong(file: &[u8]) -> Option<usize>
    ensures { MatchOption result (first_wrong file.now ≡ none) (λ block. first_wrong file.now ≡ some block) }
{
    for block in 0..blocks_in(file) {
        if !right_block(file, block) {
            return Some(block);
        }
    }
    None
}

// Payload byte `place` of a file; 0 past the payload.
pub(crate) fn pay_at(file: &[u8], place: usize) -> u8
    ensures { result ≡ get_or (payload_in file.now) place 0 }
{
    let block = place / PAY;
    if block >= file.len() / BLOCK {
        return 0;
    }
    file[place + 2 * block]
}
