//! Reads records from standard input, one a line: a name; a script and a response, each in hex or `-` where it is empty; points in hex with commas between,
//! or `-` for none; a budget and the size of the area in hex; with a space between. For each it writes a line that says what the reader of words finds in the
//! two texts, the checker's answer (number, text, place, second number, units; the end, the line and the column that it carries; the total weight of each of eight
//! functions), and what stands in the area afterwards: `unchanged`, `blank`, the lists shown, or `other`.
#![tactic(auto)]

mod answers;
mod records;

ghost use Rattle.std.specs.Prelude.{◌≡◌, ◌≤◌, length, IfOk};

use std::io;
use std::io::Read;

// Room for all of standard input.
fn input_room() -> [u8; 5000000]
    ensures { 5000000 ≡ length result }
{
    [0; 5000000]
}

// Reads until the room is full or the input ends, and answers how many bytes that are.
fn read_full(input: &mut impl Read, room: &mut [u8]) -> io::Result<usize>
    ensures { IfOk result (λ n. n ≤ length room.new) }
{
    let mut done = 0;
    for _ in 0..u64::MAX {
        let n = input.read(&mut room[done..])?;
        if n == 0 {
            break;
        }
        done += n;
    }
    Ok(done)
}

// Reads all of standard input and reports each record of it.
fn main(rt: HostRuntime) -> io::Result<()> {
    let mut input = input_room();
    let n = read_full(&mut rt.stdin(), &mut input)?;
    let mut out = io::writer(&rt);
    records::report_all(&mut out, &input[..n])
}
