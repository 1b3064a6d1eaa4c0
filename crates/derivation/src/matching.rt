//! Whether a node of a rule and a node of the body are alike.
ghost use Rattle.std.specs.Prelude.{◌≡◌};
ghost use Rattle.derivation.specs.code.Matching.{alike, leaf_fits};

use terms::codes::{ANY_ARGUMENT, ANY_LITERAL, LITERAL, NAME, head_of, kind_of};
use terms::{code_at, operands_at, value_at};

// Whether a node of a rule is of the kind of any leaf of a sort, and one of the body of the kind of such a leaf, of that sort.
fn leaf_fits(whole: u64, leaf: u64, code: u64, found: u64) -> bool
    ensures { result ≡ leaf_fits whole leaf code found }
{
    (kind_of(code) == whole) & (kind_of(found) == leaf) & (head_of(code) == head_of(found))
}

// Whether a node of a rule, which is no non-terminal, and a node of the body are alike.
pub fn alike(forms: &[u64], place: usize, body: &[u64], here: usize) -> bool
    ensures { result ≡ alike forms.now place body.now here }
{
    let code = code_at(forms, place);
    let found = code_at(body, here);
    if operands_at(forms, place) != operands_at(body, here) {
        return false;
    }
    if (code == found) & (value_at(forms, place) == value_at(body, here)) {
        return true;
    }
    leaf_fits(ANY_LITERAL, LITERAL, code, found) | leaf_fits(ANY_ARGUMENT, NAME, code, found)
}
