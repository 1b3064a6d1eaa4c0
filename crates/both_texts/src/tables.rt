//! The tables that two texts are read into: those that hold any two texts, and smaller ones for scripts of middle length and for short texts.
ghost use Rattle.std.specs.Prelude.{◌≡◌, length, ◌+◌, ◌*◌, ◌≤◌};
ghost use Rattle.forest.specs.Limits.{response_words, script_words};
ghost use Rattle.script.specs.code.Places.{places_length};
ghost use Rattle.terms.specs.code.Nodes.{row_width};
ghost use Rattle.words.specs.Limits.{response_limits};
ghost use Rattle.names.specs.code.Lookup.{Names};
ghost use Rattle.both_texts.specs.code.Both.{Rooms};
ghost use Rattle.both_texts.specs.code.Tables.{Fitting, Gave};

use forest::limits::{RESPONSE_WORDS, SCRIPT_WORDS};
use names::table;
use script::places::PLACES;
use texts::{MIDDLE_SCRIPT, SHORT_RESPONSE, SHORT_SCRIPT};

// How many words short texts have at most, a script of middle length with any response, and any script with any response.
const SHORT_TEXTS: usize = SHORT_SCRIPT + SHORT_RESPONSE;

const MIDDLE_TEXTS: usize = MIDDLE_SCRIPT + RESPONSE_WORDS;

const ANY_TEXTS: usize = SCRIPT_WORDS + RESPONSE_WORDS;

// A table of names without names.
pub fn no_names() -> [u8; table::ROW * table::ROWS]
    ensures { Names result }
{
    [0; table::ROW * table::ROWS]
}

// A table of places in which nothing stands.
pub fn no_places() -> [u64; PLACES]
    ensures { length result ≡ places_length }
{
    [0; PLACES]
}

// What a function gives that is lent an area, a row of nodes for each of so many words, and a row of forms for each of so many.
fn read_in<const NODES: usize, const FORMS: usize, A, R, F>(area: &mut [A], read: F) -> R
where
    F: FnOnce(&mut [A], &mut [u64], &mut [u64]) -> R,
    requires few_nodes { NODES ≤ script_words + response_words }
    requires few_forms { FORMS ≤ script_words }
    requires callable { (a : _) (nodes : _) (forms : _) → a.now ≡ area.old → length nodes.now ≡ NODES * row_width → length forms.now ≡ FORMS * row_width
        → F.pre read a nodes forms }
    ensures { Gave (λ nodes forms. (length nodes ≡ NODES * row_width) × (length forms ≡ FORMS * row_width)) (F.post read) area.old result area.new }
{
    let mut nodes = [[0; terms::ROW]; NODES];
    let mut forms = [[0; terms::ROW]; FORMS];
    read(area, nodes.as_flattened_mut(), forms.as_flattened_mut())
}

// What a function gives that is lent an area, and tables that fit the nodes and the forms of two texts.
pub fn in_tables<A, R, F>(script: &[u8], response: &[u8], area: &mut [A], read: F) -> R
where
    F: FnOnce(&mut [A], &mut [u64], &mut [u64]) -> R,
    requires { (a : _) (nodes : _) (forms : _) → a.now ≡ area.old → Rooms response_limits script.now response.now nodes.now forms.now
        → F.pre read a nodes forms }
    ensures { Gave (Fitting script.now response.now) (F.post read) area.old result area.new }
{
    if (script.len() <= SHORT_SCRIPT) & (response.len() <= SHORT_RESPONSE) {
        return read_in::<SHORT_TEXTS, SHORT_SCRIPT, A, R, F>(area, read);
    }
    if script.len() <= MIDDLE_SCRIPT {
        return read_in::<MIDDLE_TEXTS, MIDDLE_SCRIPT, A, R, F>(area, read);
    }
    read_in::<ANY_TEXTS, SCRIPT_WORDS, A, R, F>(area, read)
}
