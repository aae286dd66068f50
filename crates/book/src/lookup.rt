// Looking up a connection by its flow.
ghost use Rattle.std.specs.Prelude.{◌≡◌, MatchOption};
ghost use Rattle.book.specs.Books.{stored};
ghost use Rattle.book.specs.Live.{live_entry};
ghost use Rattle.book.specs.Places.{Held, Absent};

use crate::book::Book;
use crate::entry::Entry;
use crate::flow::Flow;

impl Book {
    // The number of the flow's entry, live or not.
    pub(crate) fn place(&self, flow: Flow) -> Option<usize>
        ensures result { MatchOption result (Absent (stored self.now) flow) (λ i. Held (stored self.now) flow i) }
    {
        self.index.seek(self.entries.as_slice(), flow)
    }

    // The live entry of the flow.
    pub(crate) fn find(&self, flow: Flow, clock: u32) -> Option<Entry>
        ensures result { result ≡ live_entry clock flow (stored self.now) }
    {
        let i = self.place(flow)?;
        let entry = self.entries[i];
        entry.is_live(clock).then_some(entry)
    }
}
