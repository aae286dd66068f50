// Adding, taking out and renewing entries.
ghost use Rattle.std.specs.Prelude.{◌≡◌, ℕ, ◌+◌, ◌<◌, [], ◌∷◌, ◌++◌, vec_len};
ghost use Rattle.std.specs.List.{swap_remove};
ghost use Rattle.book.specs.Books.{stored};
ghost use Rattle.book.specs.Places.{Absent};
ghost use Rattle.book.specs.Live.{Same, without, live_entry, Fitted};
ghost use Rattle.book.specs.Passages.{flow_from, flags_of};

use crate::advance::Outcome;
use crate::book::Book;
use crate::entry::{Entry, Side};
use crate::passage::Passage;

impl Book {
    // Adds an entry of a flow that has none.
    fn add(&mut self, entry: Entry)
        requires room { vec_len self.old.entries < 1024 }
        requires new { Absent (stored self.old) entry.flow }
        ensures later { stored self.new ≡ stored self.old ++ entry ∷ [] }
    {
        let number = self.entries.len();
        self.earliest = self.earliest.min(entry.deadline);
        let _ = self.entries.push(entry);
        self.index.note(self.entries.as_slice(), number);
    }

    // Takes out an entry, whose number the last one then has.
    pub(crate) fn take_out(&mut self, number: usize) -> Entry
        requires { number < vec_len self.old.entries }
        ensures later { stored self.new ≡ swap_remove (stored self.old) number result }
        ensures len { vec_len self.new.entries + 1 ≡ vec_len self.old.entries }
    {
        let entry = self.entries.swap_remove(number);
        if number < self.entries.len() {
            self.index.note(self.entries.as_slice(), number);
        }
        entry
    }

    // Writes the entry, in the place of the one of its flow if there is one.
    pub(crate) fn put(&mut self, entry: Entry)
        requires { vec_len self.old.entries < 1024 }
        ensures later { (t : ℕ) → Same t (stored self.new) (entry ∷ without entry.flow (stored self.old)) }
    {
        match self.place(entry.flow) {
            Some(i) => {
                self.earliest = self.earliest.min(entry.deadline);
                self.entries[i] = entry;
            }
            None => self.add(entry),
        }
    }

    // Takes the step of a packet on the entry that it fits from the side, if such an entry is live.
    pub(crate) fn advance(&mut self, passage: &Passage, side: Side, clock: u32) -> Option<Outcome>
        ensures result { Fitted (flow_from passage.now side) side (flags_of passage.now.kind) clock (stored self.old) (stored self.new) result (live_entry clock (flow_from passage.now side) (stored self.old)) }
    {
        let i = self.place(passage.flow(side))?;
        if !self.entries[i].is_live(clock) {
            return None;
        }
        let outcome = self.entries[i].advance(side, passage.flags(), clock);
        let deadline = self.entries[i].deadline;
        self.earliest = self.earliest.min(deadline);
        match outcome {
            Outcome::Renewed => {}
            Outcome::Erased => {
                let _ = self.take_out(i);
            }
        }
        Some(outcome)
    }
}
