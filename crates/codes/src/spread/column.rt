// The calls of a spread column, for every kind of condition.
ghost use Rattle.std.specs.Prelude.{◌≡◌, ℕ, ◌<◌, ◌≤◌, length, Some, slice_index_or};
ghost use Rattle.rows.specs.Shows.{Shows};
ghost use Rattle.rows.specs.Tables.{Put};
ghost use Rattle.rows.specs.declared.row.Row.{Row};

use super::Spread;
use crate::spread::coded::Coded;
use columns::column::{Column, LIMIT, insert_check, remove_check};
use columns::table::remove_each;
use fields::condition::Condition;
use fields::refusal::Refusal;
use rows::Row;
use std::alloc::{AllocError, Global};

impl<K: Condition> Column for Spread<K>
where
    K::Value: Coded,
{
    type Condition = K;

    ghost listed = { λ s. s.conditions.items };

    fn new(heap: Global) -> Result<Self, AllocError> {
        let conditions = Vec::with_capacity(heap, LIMIT)?;
        let rows = vec![in heap; Row::zeros(); K::Value::CODES]?;
        Ok(Spread {
            conditions,
            rows,
            absent: Row::zeros(),
        })
    }

    fn len(&self) -> usize {
        self.conditions.len()
    }

    fn insert(&mut self, position: usize, condition: K) -> Result<(), Refusal> {
        insert_check(position, self.conditions.len())?;
        let place = position - 1;
        insert_each(&mut self.rows, place, &condition);
        self.absent.insert(place, condition.holds_on(None));
        let _ = self.conditions.insert(place, condition);
        Ok(())
    }

    fn remove(&mut self, position: usize) -> Result<(), Refusal> {
        remove_check(position, self.conditions.len())?;
        let place = position - 1;
        remove_each(&mut self.rows, place);
        self.absent.remove(place);
        self.conditions.remove(place);
        Ok(())
    }

    fn read(&self, value: Option<K::Value>, row: &mut Row)
        ensures row { Shows row.new (λ c. K.admits c value) self.now.conditions.items }
    {
        *row = match value {
            Some(present) => self.rows[present.to_code()],
            None => self.absent,
        };
    }
}

// Puts into each row, at `place`, whether the condition holds on the value of the row's code. Not shared with other columns: `columns::table` says why.
fn insert_each<K: Condition>(rows: &mut [Row], place: usize, condition: &K)
where
    K::Value: Coded,
    requires { length rows.old ≤ 256 }
    ensures { (k : ℕ) (d : Row) → k < length rows.old → Put place (K.admits condition.now (Some (K.Value.decoded k))) (slice_index_or rows.old k d) (slice_index_or rows.new k d) }
{
    for (code, row) in rows.iter_mut().enumerate() {
        let holds = condition.holds_on(Some(K::Value::from_code(code as u8)));
        row.insert(place, holds);
    }
}
