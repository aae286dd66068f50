// The step of a packet.
ghost use Rattle.std.specs.Prelude.{◌≡◌, ℕ, ◌≤◌, List};
ghost use Rattle.book.specs.Books.{Keeps, stored};
ghost use Rattle.book.specs.Passages.{fit_of, Settles, answer_at, entries_at};

use crate::answer::Answer;
use crate::book::Book;
use crate::entry::Entry;
use crate::passage::Passage;
use crate::room::BookFull;

impl Book {
    // Takes the step of the packet at the clock. The answer and the entries that are live at every later clock are told
    // by any list of the entries that are live now.
    pub fn step(&mut self, passage: &Passage, clock: u32) -> Answer
        ensures result { (m : List Entry) → Keeps self.old clock m → result ≡ answer_at passage.now clock m }
        ensures later { (m : List Entry) → Keeps self.old clock m → (u : ℕ) → clock ≤ u → Keeps self.new u (entries_at passage.now clock m) }
    {
        self.take_step(passage, clock)
    }

    fn take_step(&mut self, passage: &Passage, clock: u32) -> Answer
        ensures result { Settles passage.now clock (stored self.old) (stored self.new) result (fit_of clock passage.now (stored self.old)) }
    {
        match self.fit(passage, clock) {
            Some(fit) => match self.advance(passage, fit.side, clock) {
                Some(outcome) => Answer::from(outcome),
                None => Answer::Nothing,
            },
            None if passage.opens() => match self.create(passage.opened(clock), clock) {
                Ok(()) => Answer::Created,
                Err(BookFull) => Answer::BookFull,
            },
            None => Answer::Nothing,
        }
    }
}
