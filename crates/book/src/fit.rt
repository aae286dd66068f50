// The entry that a packet fits.
ghost use Rattle.std.specs.Prelude.{◌≡◌};
ghost use Rattle.book.specs.Books.{stored};
ghost use Rattle.book.specs.Passages.{fit_from, fit_of};

use crate::book::Book;
use crate::entry::{Entry, Side};
use crate::passage::Passage;

// An entry, and the side that a packet which fits it comes from.
#[derive(Clone, Copy)]
pub struct Fit {
    pub entry: Entry,
    pub side: Side,
}

impl Book {
    // The live entry that the packet fits from the side.
    fn fit_from(&self, passage: &Passage, side: Side, clock: u32) -> Option<Fit>
        ensures result { result ≡ fit_from clock passage.now (stored self.now) side }
    {
        if !passage.fits_from(side) {
            return None;
        }
        let entry = self.find(passage.flow(side), clock)?;
        Some(Fit { entry, side })
    }

    // The live entry that the packet fits, from the opener first.
    pub(crate) fn fit(&self, passage: &Passage, clock: u32) -> Option<Fit>
        ensures result { result ≡ fit_of clock passage.now (stored self.now) }
    {
        self.fit_from(passage, Side::Opener, clock)
            .or_else(|| self.fit_from(passage, Side::Other, clock))
    }
}
