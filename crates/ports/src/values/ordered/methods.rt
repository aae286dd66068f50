// What is asked of the rows, and their edits.
ghost use Rattle.std.specs.Prelude.{◌≡◌, ℕ, ◌<◌, [], length, IfOk, slice_index_or};
ghost use Rattle.ports.specs.Keys.{Sought, port_at};
ghost use Rattle.ports.specs.Ordered.{keys_of, rows_of, Found, Given, Taken};
ghost use Rattle.rows.specs.Tables.{Put, Out};
ghost use Rattle.rows.specs.declared.row.Row.{Row};

use super::OrderedRows;
use columns::column::LIMIT;
use columns::table;
use fields::condition::Condition;
use fields::values::port::Port;
use rows::Row;
use std::alloc::{AllocError, Global};

impl OrderedRows {
    // No row, and the memory for all that can be listed.
    pub(crate) fn new(heap: Global) -> Result<Self, AllocError>
        ensures { IfOk result (λ t. (keys_of t ≡ []) × (rows_of t ≡ [])) }
    {
        let keys = Vec::with_capacity(heap, LIMIT)?;
        let rows = Vec::with_capacity(heap, LIMIT)?;
        Ok(OrderedRows { keys, rows })
    }

    // Where the key stands, or, as an `Err`, where it belongs.
    fn find(&self, key: u16) -> Result<usize, usize>
        ensures { Sought (keys_of self.now) key result }
    {
        self.keys.binary_search(&key)
    }

    // The key's row, where it has one. By a match: behind an `ok` the proof no longer knows why there is none.
    pub(crate) fn get(&self, key: u16) -> Option<&Row>
        ensures { Found key self.now result }
    {
        match self.find(key) {
            Ok(at) => Some(&self.rows[at]),
            Err(_) => None,
        }
    }

    // Gives the key a row, a copy of `row`, unless it has one.
    pub(crate) fn give(&mut self, key: u16, row: &Row)
        requires { length (keys_of self.old) < 512 }
        ensures { Given key row.now self.old self.new }
    {
        if let Err(at) = self.find(key) {
            // The memory is there, so neither insertion fails.
            let _ = self.keys.insert(at, key);
            let _ = self.rows.insert(at, *row);
        }
    }

    // Takes out the key's row, where it has one.
    pub(crate) fn take_out(&mut self, key: u16)
        ensures { Taken key self.old self.new }
    {
        if let Ok(at) = self.find(key) {
            self.keys.remove(at);
            self.rows.remove(at);
        }
    }

    // Puts into each row, at `place`, whether the condition holds on the row's key.
    pub(crate) fn insert_each<C: Condition<Value = Port>>(&mut self, place: usize, condition: &C)
        ensures keys { keys_of self.new ≡ keys_of self.old }
        ensures count { length (rows_of self.new) ≡ length (rows_of self.old) }
        ensures rows { (k : ℕ) (d : Row) → k < length (rows_of self.old) → Put place (C.Condition.admits condition.now (port_at (keys_of self.old) k)) (slice_index_or (rows_of self.old) k d) (slice_index_or (rows_of self.new) k d) }
    {
        put_each(&mut self.rows, &self.keys, place, condition);
    }

    // Takes `place` out of each row.
    pub(crate) fn remove_each(&mut self, place: usize)
        ensures keys { keys_of self.new ≡ keys_of self.old }
        ensures count { length (rows_of self.new) ≡ length (rows_of self.old) }
        ensures rows { (k : ℕ) (d : Row) → k < length (rows_of self.old) → Out place (slice_index_or (rows_of self.old) k d) (slice_index_or (rows_of self.new) k d) }
    {
        table::remove_each(&mut self.rows, place);
    }
}

// Puts into each row, at `place`, whether the condition holds on the key beside it. Not shared with other columns: `columns::table` says why.
fn put_each<C: Condition<Value = Port>>(rows: &mut [Row], keys: &[u16], place: usize, condition: &C)
    requires { length rows.old ≡ length keys.now }
    ensures { (k : ℕ) (d : Row) → k < length rows.old → Put place (C.Condition.admits condition.now (port_at keys.now k)) (slice_index_or rows.old k d) (slice_index_or rows.new k d) }
{
    // Each key is read by an index, since proofs know nothing of the rows that `iter_mut().zip(keys)` writes.
    for (k, row) in rows.iter_mut().enumerate() {
        let holds = condition.holds_on(Some(Port { number: keys[k] }));
        row.insert(place, holds);
    }
}
