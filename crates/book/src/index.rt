// The index over the entries: from a flow to the number of its entry.
//
//     slots    |   | 2 |   | 0 | 1 |   | ..      4,096, each free or with the number of an entry
//
// A look-up walks the slots from the home of the flow to the first free one. The walk of each entry meets its number
// before that; of a slot nothing is asked, so that what an erased entry left in the slots does no harm.
ghost use Rattle.std.specs.Prelude.{◌≡◌, ◌+◌, ◌<◌, ◌≤◌, length, MatchOption};
ghost use Rattle.book.specs.Home.{home};
ghost use Rattle.book.specs.Index.{Reached, ReachedBut, Linked, FreeAt, frees};
ghost use Rattle.book.specs.Places.{Held, Absent};

use crate::entry::Entry;
use crate::flow::Flow;
use crate::hash::Keys;

const SLOTS: usize = 4096;

// The entries are the book's, not its own, so each call says of both that the walks reach them.
#[derive(Drop)]
pub struct Index {
    pub(crate) slots: [Option<u16>; SLOTS],
    // how many slots are free
    free: usize,
    pub(crate) keys: Keys,
    ghost counted: { free ≡ frees slots },
}

impl Index {
    // An index of no entries.
    pub(crate) fn new(seed: u64) -> Index {
        Index {
            slots: [None; SLOTS],
            free: SLOTS,
            keys: Keys::of(seed),
        }
    }

    // The number of the flow's entry.
    pub(crate) fn seek(&self, entries: &[Entry], flow: Flow) -> Option<usize>
        requires reached { Reached self.now.keys self.now.slots entries.now (length entries.now) }
        ensures result { MatchOption result (Absent entries.now flow) (λ i. Held entries.now flow i) }
    {
        let home = self.keys.home(flow);
        // The walk wraps round. A chain of the slots from home on and those before it is a third slower: 6.2 ns against 4.6.
        for j in 0..SLOTS {
            let number = usize::from(self.slots[(home + j) % SLOTS]?);
            if number < entries.len() && entries[number].is_of(flow) {
                return Some(number);
            }
        }
        None
    }

    // The first free slot of the walk for the flow.
    fn free_slot(&self, flow: Flow) -> usize
        requires some { 0 < self.now.free }
        ensures result { FreeAt self.now.slots (home self.now.keys flow) result }
    {
        let home = self.keys.home(flow);
        // As in `seek`; `map` and `find` over these numbers are as slow as the chain.
        for j in 0..SLOTS {
            let p = (home + j) % SLOTS;
            if self.slots[p].is_none() {
                return p;
            }
        }
        unreachable()
    }

    // Writes the number for the walk of the flow.
    fn link(&mut self, flow: Flow, number: u16)
        requires some { 0 < self.old.free }
        ensures later { Linked self.old.slots self.new.slots (home self.old.keys flow) number }
        ensures keys { self.new.keys ≡ self.old.keys }
        ensures free { self.new.free + 1 ≡ self.old.free }
    {
        let p = self.free_slot(flow);
        self.slots[p] = Some(number);
        self.free -= 1;
    }

    // Writes the index anew.
    pub(crate) fn rebuild(&mut self, entries: &[Entry])
        requires few { length entries.now ≤ 1024 }
        ensures reached { Reached self.new.keys self.new.slots entries.now (length entries.now) }
        ensures keys { self.new.keys ≡ self.old.keys }
    {
        self.slots = [None; SLOTS];
        self.free = SLOTS;
        for (n, entry) in entries.iter().enumerate() {
            self.link(entry.flow, n as u16);
        }
    }

    // Makes the number's entry known to the index, which knows all others.
    // At half the slots taken the index is written anew, which cannot come again before 1,024 more are taken.
    pub(crate) fn note(&mut self, entries: &[Entry], number: usize)
        requires few { length entries.now ≤ 1024 }
        requires inside { number < length entries.now }
        requires others { ReachedBut self.old.keys self.old.slots entries.now number }
        ensures reached { Reached self.new.keys self.new.slots entries.now (length entries.now) }
        ensures keys { self.new.keys ≡ self.old.keys }
    {
        if self.free <= SLOTS / 2 {
            self.rebuild(entries);
        } else {
            self.link(entries[number].flow, number as u16);
        }
    }
}
