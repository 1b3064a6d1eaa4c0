//! The item past a limit.
ghost use Rattle.std.specs.Prelude.{◌≡◌};
ghost use Rattle.lexemes.specs.code.Standing.{Between};
ghost use Rattle.term_nodes.specs.Rules.{item_past};

use lexemes::items::item_at;

// The first word of the item past the first `most` of those from a word to the bracket that closes their list; `nowhere` where there are no more than that.
pub fn item_past(lexemes: &[u64], first: usize, close: usize, most: usize, nowhere: usize) -> usize
    requires { Between lexemes.now first close }
    ensures { (b : Between lexemes.now first close) → result ≡ item_past nowhere most b.items }
{
    let at = item_at(lexemes, first, close, most);
    if at < close {
        return at;
    }
    nowhere
}
