//! The lent area.
ghost use Rattle.std.specs.Prelude.{◌≡◌};
ghost use Rattle.outcome.specs.Checked.{unshown};
ghost use Rattle.outcome.specs.Derived.{blank_area};

use forest::limits::{AREA, UNUSED};

// Makes every entry of an area unused; one of wrong size is left as it is.
pub fn blank_area(shown: &mut [u16])
    ensures { shown.new ≡ unshown shown.old }
{
    if shown.len() == AREA {
        shown.fill(UNUSED);
    }
}

// An area that shows nothing.
pub fn no_lists() -> [u16; AREA]
    ensures { result ≡ blank_area }
{
    [UNUSED; AREA]
}
