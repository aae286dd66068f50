// Making place for one more connection.
ghost use Rattle.std.specs.Prelude.{MatchResult};
ghost use Rattle.book.specs.Books.{stored};
ghost use Rattle.book.specs.Live.{Full, RoomMade, Created};

use crate::book::{Book, CAPACITY};
use crate::entry::Entry;

// As many live entries as there is room for.
#[derive(Clone, Copy, PartialEq, Eq, Debug)]
pub struct BookFull;

impl Book {
    // Sees to it that there is a place for one more entry.
    // A full book is not swept before a deadline can have passed.
    fn make_room(&mut self, clock: u32) -> Result<(), BookFull>
        ensures result { MatchResult result (λ _. RoomMade clock (stored self.old) (stored self.new)) (λ _. Full clock (stored self.old) (stored self.new)) }
    {
        if self.entries.len() < CAPACITY {
            return Ok(());
        }
        if u64::from(clock) < self.earliest {
            return Err(BookFull);
        }
        self.sweep(clock);
        if self.entries.len() < CAPACITY {
            Ok(())
        } else {
            Err(BookFull)
        }
    }

    // Records a new connection, in the place of what its flow had.
    pub(crate) fn create(&mut self, entry: Entry, clock: u32) -> Result<(), BookFull>
        ensures result { MatchResult result (λ _. Created clock entry (stored self.old) (stored self.new)) (λ _. Full clock (stored self.old) (stored self.new)) }
    {
        self.make_room(clock)?;
        self.put(entry);
        Ok(())
    }
}
