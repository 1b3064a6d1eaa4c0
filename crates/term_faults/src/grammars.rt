//! Rules that are not of their non-terminal's sort.
ghost use Rattle.term_faults.specs.code.Grammars.{FindsInRules, HeadSort, Heads, RulesFound, RulesSought};

use crate::roots::side_misfit;
use derivation::RULE;
use forest::limits;
use forest::numbers::{entry_at, least};

// How many numbers a signature has.
const ROW: usize = 2 + limits::ARGUMENTS;

// The signature of the first non-terminal.
const FIRST: usize = limits::DEFINED + limits::FUNCTIONS;

// The sort of the non-terminal at a place, of which `listed` are declared; 0 past the last.
fn head_sort(signatures: &[u64], head: usize, listed: usize) -> u64
    requires { Heads signatures.now listed }
    ensures { (p : Heads signatures.now listed) → HeadSort p head result }
{
    if head < listed {
        entry_at(signatures, ROW * (FIRST + head) + 1)
    } else {
        0
    }
}

// The least first word of a rule that is not of its non-terminal's sort, of which `listed` are declared; `nowhere` where all are.
pub fn rules_misfit(
    lexemes: &[u64],
    raw: &[u64],
    rules: &[u64],
    signatures: &[u64],
    column: &[u8],
    count: usize,
    listed: usize,
    nowhere: usize,
) -> usize
    requires { RulesSought lexemes.now raw.now rules.now signatures.now column.now count listed }
    ensures { FindsInRules lexemes.now raw.now rules.now signatures.now column.now
        count listed nowhere result }
{
    let mut place = nowhere;
    for rule in 0..count {
        let start = rules[RULE * rule] as usize;
        let head = rules[RULE * rule + 1] as usize;
        let sort = head_sort(signatures, head, listed);
        place = least(
            place,
            side_misfit(lexemes, raw, column, start, sort, nowhere),
        );
    }
    place
}
