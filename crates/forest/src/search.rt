//! The search for a word among words that stand one after the other in one list of bytes, by a table that has each of them in a slot of its own.
ghost use Rattle.std.specs.Prelude.{◌≡◌};
ghost use Rattle.forest.specs.Lists.{same_bytes};
ghost use Rattle.forest.specs.Search.{place_in};
ghost use Rattle.forest.specs.code.Search.{Slotted, slot_of, words_in};

// How many slots a table of slots has.
pub const SLOTS: usize = 512;

// Whether two lists of bytes are the same.
pub fn same_bytes(left: &[u8], right: &[u8]) -> bool
    ensures { result ≡ same_bytes left.now right.now }
{
    left == right
}

// The slot of a word.
fn slot_of(word: &[u8]) -> usize
    ensures { result ≡ slot_of word.now }
{
    let mut slot = 13;
    for byte in word {
        slot = (7 * slot + usize::from(*byte)) % SLOTS;
    }
    slot
}

// The place of the first of the words in `names` that is `word`; the number of words where none is. The word in its slot is the only one that can be it.
pub fn find_word(names: &[u8], starts: &[usize], slots: &[u8], word: &[u8]) -> usize
    requires { Slotted names.now starts.now slots.now }
    ensures { result ≡ place_in (words_in names.now starts.now) 0 word.now }
{
    let count = starts.len() - 1;
    let place = slots[slot_of(word)] as usize;
    if place >= count {
        return count;
    }
    if same_bytes(&names[starts[place]..starts[place + 1]], word) {
        return place;
    }
    count
}
