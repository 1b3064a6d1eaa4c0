//! What a rule costs that derives the tree at a node of the body, where the masks and ranks of the later nodes are known.
ghost use Rattle.searching.specs.code.Matching.{AsksNoChain, Matched};

use crate::masks::{mask_at, rank_at};
use derivation::masks::has;
use derivation::matching::alike;
use derivation::rules::{start_at, weight_at};
use forest::limits::LIST;
use terms::codes::NON_TERMINAL;
use terms::{code_at, size_at, value_at};

// A rank is a weight times this, and a count of rules.
pub const PER_WEIGHT: u64 = 2 * LIST as u64;

// The rank of the least list that a rule, which is no chain rule, begins at a node of the body, given the masks past it; 0 if it does not derive the node.
pub(crate) fn rank_of(
    rules: &[u64],
    forms: &[u64],
    body: &[u64],
    masks: &[u64],
    node: usize,
    rule: usize,
) -> u64
    requires { AsksNoChain rules.now forms.now body.now masks.now node rule }
    ensures { Matched rules.now forms.now body.now masks.now node rule result }
{
    let start = start_at(rules, rule);
    let end = start + size_at(forms, start);
    let mut here = node;
    let mut sum = PER_WEIGHT * weight_at(rules, rule) + 1;
    for place in start..end {
        if code_at(forms, place) == NON_TERMINAL {
            let nonterminal = value_at(forms, place);
            if !has(mask_at(masks, here), nonterminal) {
                return 0;
            }
            sum += rank_at(masks, here, nonterminal);
            here += size_at(body, here);
        } else {
            if !alike(forms, place, body, here) {
                return 0;
            }
            here += 1;
        }
    }
    sum
}
