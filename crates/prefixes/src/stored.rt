// A stored string, and what a set knows of it.
ghost use Rattle.std.specs.Prelude.{◌≡◌};
ghost use Rattle.prefixes.specs.Ranges.{low as low_of, past as past_of};
ghost use Rattle.prefixes.specs.Spelled.{spelled};

use crate::ranges::{Range, range_of};
use crate::symbols::Symbols;

// A string, the range of numbers that it begins, and the place of the longest other string that begins it.
#[derive(Clone, Copy)]
pub(crate) struct Stored {
    pub symbols: Symbols,
    pub range: Range,
    pub link: usize,
    ghost low: { range.low ≡ low_of 32 (spelled symbols) },
    ghost past: { range.past ≡ past_of 32 (spelled symbols) },
}

impl Stored {
    // A string that is not linked yet.
    pub(crate) fn new(symbols: Symbols) -> Stored
        ensures { spelled result.symbols ≡ spelled symbols }
    {
        let range = range_of(symbols.as_slice());
        Stored {
            symbols,
            range,
            link: 0,
        }
    }
}
