//! The Ring case of document 01: A has the rule B; B has A and x. The body x, of function 1, shows the rules 0 and 2.
//! Of lists that are read, that one alone derives it without using a non-terminal twice.
#![tactic(auto)]

ghost use Rattle.std.specs.Prelude.{length, ◌≡◌};

use std::io;
use std::io::Write;

// The place in the area where function 1's list starts.
const PLACE: usize = 4096;

// The rules, their right sides, and the body.
const RULES: [u64; 9] = [0, 0, 0, 1, 1, 0, 2, 1, 0];

const FORMS: [u64; 12] = [5, 1, 0, 1, 5, 0, 0, 1, 513, 0, 0, 1];

const BODY: [u64; 4] = [513, 0, 0, 1];

// An area in which no list is shown.
fn unused_area() -> [u16; 32768]
    ensures { length result ≡ 32768 }
{
    [65535u16; 32768]
}

// A rule number in print.
fn digit(rule: u16) -> u8 {
    if rule < 10 {
        return b'0' + (rule as u8);
    }
    b'-'
}

// Whether a list derives the body, in print.
fn followed(list: &[u16]) -> u8 {
    if following::follows(&RULES, &FORMS, &BODY, list) {
        return b'y';
    }
    b'n'
}

// The shown list; one that goes round the ring; one too short, one too long; one that begins with a rule of B.
fn show_followed(out: &mut impl Write) -> io::Result<()> {
    let shown: [u16; 2] = [0, 2];
    let round: [u16; 4] = [0, 1, 0, 2];
    let short: [u16; 1] = [0];
    let long: [u16; 3] = [0, 2, 2];
    let other: [u16; 1] = [2];
    let line = [
        followed(&shown),
        followed(&round),
        followed(&short),
        followed(&long),
        followed(&other),
        b'\n',
    ];
    out.write_all(&line)
}

fn main(rt: HostRuntime) -> io::Result<()> {
    let mut out = io::writer(&rt);
    let mut area = unused_area();
    if searching::derive(&RULES, &FORMS, &BODY, 1, &mut area).is_some() {
        let line = [
            digit(area[PLACE]),
            b' ',
            digit(area[PLACE + 1]),
            b' ',
            digit(area[PLACE + 2]),
            b'\n',
        ];
        out.write_all(&line)?;
    }
    show_followed(&mut out)
}
