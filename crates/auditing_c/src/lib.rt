//! The check of an evidence file for C.
#![tactic(auto)]

ghost use Rattle.evidence.specs.Evidence.{AuditForC};

// `check_evidence` for C: returns the answer's number, and puts the sixteen numbers where the caller lends room for them.
#[unsafe(no_mangle)]
pub extern "C" fn sverdhyll_check_evidence(file: &[u8], numbers: &mut [u64; 16]) -> u8
    ensures { AuditForC file.now result numbers.new }
{
    auditing::sverdhyll_check_evidence(file, numbers)
}
