// The value column's calls.
ghost use Rattle.std.specs.Prelude.{◌≡◌, ◌<◌, length};
ghost use Rattle.ports.specs.Ordered.{keys_of};
ghost use Rattle.ports.specs.Owned.{Readied, Cleaned};
ghost use Rattle.fields.specs.Conditions.{plain_admits};
ghost use Rattle.fields.specs.Passing.{port_passes};
ghost use Rattle.rows.specs.Shows.{Shows};

use super::ValueColumn;
use crate::values::naming::some_names;
use crate::values::ordered::OrderedRows;
use columns::column::{Column, LIMIT, insert_check, remove_check};
use fields::condition::Condition;
use fields::condition::plain::Plain;
use fields::refusal::Refusal;
use fields::values::port::Port;
use rows::Row;
use std::alloc::{AllocError, Global};

impl Column for ValueColumn {
    type Condition = Plain<Port>;

    ghost listed = { λ s. s.conditions.items };

    fn new(heap: Global) -> Result<Self, AllocError> {
        let conditions = Vec::with_capacity(heap, LIMIT)?;
        let table = OrderedRows::new(heap)?;
        Ok(ValueColumn {
            conditions,
            table,
            others: Row::zeros(),
        })
    }

    fn len(&self) -> usize {
        self.conditions.len()
    }

    fn insert(&mut self, position: usize, condition: Plain<Port>) -> Result<(), Refusal> {
        insert_check(position, self.conditions.len())?;
        let place = position - 1;
        make_ready(&mut self.table, &condition, &self.others);
        self.table.insert_each(place, &condition);
        self.others.insert(place, condition.holds_on(None));
        let _ = self.conditions.insert(place, condition);
        Ok(())
    }

    fn remove(&mut self, position: usize) -> Result<(), Refusal> {
        remove_check(position, self.conditions.len())?;
        let place = position - 1;
        self.table.remove_each(place);
        self.others.remove(place);
        let removed = self.conditions.remove(place);
        clean_up(&mut self.table, &removed, &self.conditions);
        Ok(())
    }

    fn read(&self, value: Option<Port>, row: &mut Row)
        ensures row { Shows row.new (λ c. plain_admits port_passes c value) self.now.conditions.items }
    {
        *row = match value {
            Some(port) => *self.table.get(port.number).unwrap_or(&self.others),
            None => self.others,
        };
    }
}

// Gives the port that the condition names a row of its own, a copy of `others`, unless it has one.
fn make_ready(table: &mut OrderedRows, condition: &Plain<Port>, others: &Row)
    requires { length (keys_of table.old) < 512 }
    ensures { Readied condition.now others.now table.old table.new }
{
    if let Plain::Is(port) = condition {
        table.give(port.number, others);
    }
}

// Takes out the row of the port that the removed condition named, unless a condition that remains names it.
fn clean_up(table: &mut OrderedRows, removed: &Plain<Port>, conditions: &[Plain<Port>])
    ensures { Cleaned removed.now conditions.now table.old table.new }
{
    if let Plain::Is(port) = removed
        && !some_names(conditions, port.number)
    {
        table.take_out(port.number);
    }
}
