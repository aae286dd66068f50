// Taking out what is no longer live.
ghost use Rattle.std.specs.Prelude.{◌≤◌, length};
ghost use Rattle.book.specs.Books.{stored};
ghost use Rattle.book.specs.Live.{Same, AllLive, NoneBefore};
ghost use Rattle.book.specs.Sweeps.{Told};

use crate::book::Book;
use crate::entry::Entry;

// As many dead entries at the most go one by one. Of more, writing the index anew takes no longer.
const FEW: usize = 96;

// What a look over the entries found: how many are dead, the numbers of these as far as there is room, and the first deadline of the live ones.
#[derive(Clone, Copy)]
struct Found {
    dead: usize,
    numbers: [usize; FEW],
    earliest: u64,
}

// One look for all of it, since a full book is swept while a packet waits.
fn look_over(entries: &[Entry], clock: u32) -> Found
    ensures { result.dead ≤ 96 → Told clock entries.now (length entries.now) result.dead result.numbers result.earliest }
{
    // Each by itself, and not in a Found: beside an array they would lie in memory, and each step wait for the one before.
    let mut dead = 0;
    let mut numbers = [0; FEW];
    let mut earliest = u64::MAX;
    for (number, entry) in entries.iter().enumerate() {
        if entry.is_live(clock) {
            earliest = earliest.min(entry.deadline);
        } else {
            if dead < FEW {
                numbers[dead] = number;
            }
            dead += 1;
        }
    }
    Found {
        dead,
        numbers,
        earliest,
    }
}

// The first deadline of the entries, or the last time of all where there are none.
fn first_deadline(entries: &[Entry]) -> u64
    ensures result { NoneBefore result entries.now }
{
    entries
        .iter()
        .map(|entry| entry.deadline)
        .min()
        .unwrap_or(u64::MAX)
}

impl Book {
    // Takes the dead entries out one by one, as an erased one goes.
    // From the back, so that the last entry, which takes the place, is live.
    fn take_out_found(&mut self, found: &Found, clock: u32)
        requires few { found.now.dead ≤ 96 }
        requires told { Told clock (stored self.old) (length (stored self.old)) found.now.dead found.now.numbers found.now.earliest }
        ensures later { Same clock (stored self.new) (stored self.old) }
        ensures live { AllLive clock (stored self.new) }
    {
        for j in (0..found.dead).rev() {
            let _ = self.take_out(found.numbers[j]);
        }
        self.earliest = found.earliest;
    }

    // Keeps the live entries, and writes the index anew.
    fn keep_live(&mut self, clock: u32)
        ensures later { Same clock (stored self.new) (stored self.old) }
        ensures live { AllLive clock (stored self.new) }
    {
        self.entries.retain(|entry| entry.is_live(clock));
        self.earliest = first_deadline(self.entries.as_slice());
        self.index.rebuild(self.entries.as_slice());
    }

    // Takes out every entry that is no longer live, and finds out when the next deadline comes.
    pub(crate) fn sweep(&mut self, clock: u32)
        ensures later { Same clock (stored self.new) (stored self.old) }
        ensures live { AllLive clock (stored self.new) }
    {
        let found = look_over(self.entries.as_slice(), clock);
        if found.dead <= FEW {
            self.take_out_found(&found, clock);
        } else {
            self.keep_live(clock);
        }
    }
}
