// The label of a packet.
ghost use Rattle.std.specs.Prelude.{◌≡◌, List};
ghost use Rattle.book.specs.Books.{Keeps, stored};
ghost use Rattle.book.specs.Passages.{label_at};

use crate::book::Book;
use crate::entry::Entry;
use crate::passage::Passage;
use fields::values::label::Label;

impl Book {
    // The label of the packet at the clock, told by any list of the entries that are live then. Alters nothing.
    pub fn label(&self, passage: &Passage, clock: u32) -> Label
        ensures result { (m : List Entry) → Keeps self.now clock m → result ≡ label_at passage.now clock m }
    {
        self.find_label(passage, clock)
    }

    fn find_label(&self, passage: &Passage, clock: u32) -> Label
        ensures result { result ≡ label_at passage.now clock (stored self.now) }
    {
        match self.fit(passage, clock) {
            Some(fit) => fit.entry.label(fit.side),
            None if passage.opens() => Label::New,
            None => Label::Invalid,
        }
    }
}
