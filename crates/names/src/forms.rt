//! The forms that terms say, node by node, and the first name in them that is not known.
ghost use Rattle.std.specs.Prelude.{◌≡◌, [], ◌∷◌, ◌+◌, ◌*◌, ◌≤◌, length};
ghost use Rattle.std.proofs.lemmas.List.Edits.{sets};
ghost use Rattle.terms.specs.code.Nodes.{row_width};
ghost use Rattle.names.specs.code.Forms.{Resolves, Resolving};

use crate::nodes::{node_means, unknown_word};
use crate::{Meaning, Seen, Target};
use forest::numbers::least;
use term_nodes::{first_at, head_at, operands_at, size_at};
use terms::ROW;

// Writes the row of a node.
fn put_form(forms: &mut [u64], row: usize, meaning: Meaning, operands: usize, size: usize)
    requires { row_width * row + row_width ≤ length forms.old }
    ensures { forms.new ≡ sets forms.old (row_width * row) (meaning.code ∷ meaning.value ∷ operands ∷ size ∷ []) }
{
    let at = ROW * row;
    forms[at] = meaning.code;
    forms[at + 1] = meaning.value;
    forms[at + 2] = operands as u64;
    forms[at + 3] = size as u64;
}

// Writes the forms of the nodes of a table into their rows; returns the least word with a name that is not known, `nowhere` where all are.
pub fn write_forms(
    names: &[u8],
    seen: Seen,
    text: &[u8],
    lexemes: &[u64],
    raw: &[u64],
    forms: &mut [u64],
    target: Target,
) -> usize
    requires { Resolving names.now text.now lexemes.now raw.now forms.old seen target.count target.base }
    ensures { Resolves names.now text.now lexemes.now raw.now forms.old seen target
        forms.new result }
{
    let mut unknown = target.nowhere;
    for node in 0..target.count {
        let first = first_at(raw, node);
        let head = head_at(raw, node);
        let meaning = node_means(names, seen, text, lexemes, first, head);
        put_form(
            forms,
            target.base + node,
            meaning,
            operands_at(raw, node),
            size_at(raw, node),
        );
        unknown = least(
            unknown,
            unknown_word(meaning.known, lexemes, first, head, target.nowhere),
        );
    }
    unknown
}
