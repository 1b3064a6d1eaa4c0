//! What the table of places has of a synthesized function: its signature and its numbers.
ghost use Rattle.synth_fun.specs.code.Rows.{Put, Putting};

use crate::Parts;
use forest::limits::ARGUMENTS;
use names::table::OWN_ARGUMENTS;
use script::Progress;
use script::places::put_numbers;
use script::signatures::{FUNCTION_ROW, put_signature};

// Writes the signature and the numbers of one function more.
pub(crate) fn put_function(names: &[u8], places: &mut [u64], progress: Progress, parts: Parts)
    requires { Putting names.now places.old progress parts.header }
    ensures { Put names.now places.old progress parts.gathered parts.header places.new }
{
    let function = progress.functions;
    put_signature(
        names,
        places,
        FUNCTION_ROW + function,
        OWN_ARGUMENTS + ARGUMENTS * function,
        parts.header.arguments,
        parts.header.result,
    );
    put_numbers(
        places,
        function,
        progress.forms,
        parts.gathered.row,
        parts.gathered.rule,
        progress.defined,
    );
}
