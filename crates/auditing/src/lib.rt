//! The check of an evidence file (request E12): its blocks, the texts that it holds, and the lists of rules. Nothing here searches for derivations.
#![tactic(auto)]

mod lists;
mod reading;

ghost use Rattle.evidence.specs.Evidence.{AuditForC, AuditGiven};
ghost use Rattle.auditing.specs.code.Files.{FileTexts, TextRooms};

use crate::reading::audit_texts;
use blocks::HEAD;
use blocks::reading::{copy_part, file_fault, response_length, script_length};
use both_texts::answers::{unlocated, write_answer};
use both_texts::lengths::length_answer;
use both_texts::located::locate;
use forest::limits::{RESPONSE_BYTES, SCRIPT_BYTES};
use outcome::{Answer, NONE, no_totals, refusal};
use script::answers::{ACCEPTED, WRONG_BLOCK};

// The answer on a file without a fault, whose texts are these, with what it carries.
fn answer_texts(file: &[u8], script: &[u8], response: &[u8]) -> Answer
    requires { FileTexts file.now script.now response.now }
    ensures { AuditGiven file.now result }
{
    let outcome = audit_texts(file, script, response);
    Answer {
        outcome,
        location: locate(script, response, outcome),
        totals: no_totals(),
    }
}

// Copies the texts of a file without a fault into what is lent, and answers on them.
fn answer_copied(file: &[u8], script: &mut [u8], response: &mut [u8]) -> Answer
    requires { TextRooms file.now script.old response.old }
    ensures { AuditGiven file.now result }
{
    copy_part(file, HEAD, script);
    copy_part(file, HEAD + script.len(), response);
    answer_texts(file, script, response)
}

// The answer on any file: 21 with the block at fault, the answers of its texts, 22 with the function whose list is wrong, or 0.
pub fn check_evidence(file: &[u8]) -> Answer
    ensures { AuditGiven file.now result }
{
    if let Some(block) = file_fault(file) {
        return unlocated(refusal(WRONG_BLOCK, NONE, block));
    }
    let script_size = script_length(file);
    let response_size = response_length(file);
    let long = length_answer(script_size, response_size);
    if long.number != ACCEPTED {
        return unlocated(long);
    }
    let mut script = [0; SCRIPT_BYTES];
    let mut response = [0; RESPONSE_BYTES];
    answer_copied(
        file,
        &mut script[..script_size],
        &mut response[..response_size],
    )
}

// `check_evidence` for C: returns the answer's number, and puts the sixteen numbers where the caller lends room for them.
pub fn sverdhyll_check_evidence(file: &[u8], numbers: &mut [u64; 16]) -> u8
    ensures { AuditForC file.now result numbers.new }
{
    let found = check_evidence(file);
    write_answer(found, numbers);
    found.outcome.number as u8
}
