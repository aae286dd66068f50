// The reading of keyed rows, and their edits.
ghost use Rattle.std.specs.Prelude.{◌≡◌, ℕ, ◌<◌, ◌≤◌, ◌||◌, List, [], length, IfOk, Some};
ghost use Rattle.std.specs.List.{insert, remove};
ghost use Rattle.std.specs.Option.{option_map};
ghost use Rattle.rows.specs.Shows.{Shows};
ghost use Rattle.prefixes.specs.Bits.{bits_of};
ghost use Rattle.prefixes.specs.Fronts.{Fronts, covers, names, named, has};
ghost use Rattle.prefixes.specs.Keyed.{keys_of, RowsTold, Keys, KeysWith};
ghost use Rattle.prefixes.specs.Spelled.{spelled};
ghost use Rattle.prefixes.specs.Stored.{at as string_at};

use super::KeyedRows;
use super::edits::insert_each;
use crate::indexed::IndexedSet;
use crate::set::ROOM;
use crate::symbols::Symbols;
use columns::table::remove_each;
use rows::Row;
use std::alloc::{AllocError, Global};

impl KeyedRows {
    // Only the empty string, for no condition.
    pub(crate) fn new(heap: Global) -> Result<KeyedRows, AllocError>
        ensures { IfOk result (λ t. RowsTold t [] × Keys t []) }
    {
        let set = IndexedSet::new(heap)?;
        let mut rows = Vec::with_capacity(heap, ROOM)?;
        rows.push_reserved(Row::zeros());
        Ok(KeyedRows { set, rows })
    }

    // The row of a key: that of the longest string which begins it.
    pub(crate) fn row(&self, key: &Symbols) -> Row
        ensures { (fs : Fronts) → RowsTold self.now fs → Keys self.now fs → Shows result (λ f. covers f (spelled key.now)) fs }
    {
        self.rows[self.set.longest(key)]
    }

    // The row of a key that is a number of 32 bits: a call of its own, since it goes by the stretches and `row` by a search.
    pub(crate) fn row_of_number(&self, key: u32) -> Row
        ensures { (fs : Fronts) → RowsTold self.now fs → Keys self.now fs → Shows result (λ f. covers f (bits_of 32 key)) fs }
    {
        self.rows[self.set.longest_number(key)]
    }

    // Gives a front a row, where it has none: a copy of the row of the longest string that begins it, since the same conditions cover both.
    // That there is room is known to the list above alone, so each call from here down to the set asks it.
    pub(crate) fn give(&mut self, front: &Option<Symbols>)
        requires { length (keys_of self.old) < 513 }
        ensures told { (fs : Fronts) → RowsTold self.old fs → Keys self.old fs → RowsTold self.new fs }
        ensures stored { (s : List ℕ) → has (keys_of self.new) s ≡ (names (option_map spelled front.now) s || has (keys_of self.old) s) }
    {
        let Some(prefix) = front else { return };
        if let Err(at) = self.set.locate(prefix) {
            let row = self.rows[self.set.longest(prefix)];
            let _ = self.rows.insert(at, row);
            self.set.put(at, *prefix);
        }
    }

    // Puts a condition with this front in at `place`.
    pub(crate) fn insert(&mut self, place: usize, front: &Option<Symbols>)
        ensures told { (fs : Fronts) → place ≤ length fs → length fs < 512 → RowsTold self.old fs → RowsTold self.new (insert fs place (option_map spelled front.now)) }
        ensures keys { keys_of self.new ≡ keys_of self.old }
    {
        insert_each(&mut self.rows, self.set.as_slice(), place, front);
    }

    // Takes the condition at `place` out.
    pub(crate) fn remove(&mut self, place: usize)
        ensures told { (fs : Fronts) → place < length fs → RowsTold self.old fs → RowsTold self.new (remove fs place) }
        ensures keys { keys_of self.new ≡ keys_of self.old }
    {
        remove_each(&mut self.rows, place);
    }

    // Whether the string at a place, which is not the empty one, is the front of a condition: then one covers it that does not cover its parent.
    fn serves(&self, at: usize) -> bool
        requires above { 0 < at }
        requires within { at < length (keys_of self.now) }
        ensures { (fs : Fronts) → RowsTold self.now fs → KeysWith self.now (Some (string_at (keys_of self.now) at)) fs → result ≡ named fs (string_at (keys_of self.now) at) }
    {
        let mut own = self.rows[at];
        own.clear(&self.rows[self.set.parent(at)]);
        own.any()
    }

    // Lets go of the row of a front that no condition has any more.
    pub(crate) fn forget(&mut self, front: &Option<Symbols>)
        ensures told { (fs : Fronts) → RowsTold self.old fs → RowsTold self.new fs }
        ensures stored { (fs : Fronts) → RowsTold self.old fs → KeysWith self.old (option_map spelled front.now) fs → Keys self.new fs }
    {
        let Some(prefix) = front else { return };
        let Ok(at) = self.set.locate(prefix) else {
            return
        };
        if at > 0 && !self.serves(at) {
            self.set.take_out(at);
            let _ = self.rows.remove(at);
        }
    }
}
