// The reading of a column of prefixes, and its edits.
ghost use Rattle.std.specs.Prelude.{◌≡◌, ◌<◌, ◌≤◌, length};
ghost use Rattle.std.specs.List.{insert, remove};
ghost use Rattle.std.specs.Option.{option_map};
ghost use Rattle.fields.specs.Conditions.{plain_admits};
ghost use Rattle.rows.specs.Shows.{Shows};
ghost use Rattle.prefixes.specs.Listed.{front_of};
ghost use Rattle.prefixes.specs.Spelled.{spelled};

use super::PrefixColumn;
use crate::keyed::KeyedRows;
use crate::prefix::Prefix;
use crate::symbols::Symbols;
use columns::column::{Column, LIMIT, insert_check, remove_check};
use fields::condition::plain::Plain;
use fields::condition::{Condition, Test};
use fields::refusal::Refusal;
use rows::Row;
use std::alloc::{AllocError, Global};

// The front of a condition; "any" has none.
fn front_of<T: Prefix>(condition: &Plain<T>) -> Option<Symbols>
    ensures { option_map spelled result ≡ front_of T.Prefix.front condition.now }
{
    match condition {
        Plain::Any => None,
        Plain::Is(pattern) => Some(pattern.front_symbols()),
    }
}

impl<T: Prefix> PrefixColumn<T> {
    // The row of the conditions that hold on a value, or on an absent field.
    fn row(&self, value: Option<T::Value>) -> Row
        ensures { Shows result (λ c. plain_admits T.Test.passes c value) self.now.conditions.items }
    {
        match value {
            None => self.absent,
            Some(present) => match T::number(present) {
                Some(number) => self.keyed.row_of_number(number),
                None => self.keyed.row(&T::spell(present)),
            },
        }
    }

    // Puts a condition in at `place`, counted from 0.
    fn list(&mut self, place: usize, condition: Plain<T>)
        requires within { place ≤ length self.old.conditions.items }
        requires few { length self.old.conditions.items < 512 }
        ensures { self.new.conditions.items ≡ insert self.old.conditions.items place condition }
    {
        let front = front_of(&condition);
        self.keyed.give(&front);
        self.keyed.insert(place, &front);
        self.absent.insert(place, condition.is_any());
        let _ = self.conditions.insert(place, condition);
    }

    // Takes the condition at `place` out, counted from 0, and the row of its front where no other condition has it.
    fn unlist(&mut self, place: usize)
        requires { place < length self.old.conditions.items }
        ensures { self.new.conditions.items ≡ remove self.old.conditions.items place }
    {
        let front = front_of(&self.conditions[place]);
        self.keyed.remove(place);
        self.keyed.forget(&front);
        self.absent.remove(place);
        let _ = self.conditions.remove(place);
    }
}

impl<T: Prefix> Column for PrefixColumn<T> {
    type Condition = Plain<T>;

    ghost listed = { λ s. s.conditions.items };

    fn new(heap: Global) -> Result<Self, AllocError> {
        let conditions = Vec::with_capacity(heap, LIMIT)?;
        let keyed = KeyedRows::new(heap)?;
        Ok(PrefixColumn {
            conditions,
            keyed,
            absent: Row::zeros(),
        })
    }

    fn len(&self) -> usize {
        self.conditions.len()
    }

    fn insert(&mut self, position: usize, condition: Plain<T>) -> Result<(), Refusal> {
        insert_check(position, self.conditions.len())?;
        self.list(position - 1, condition);
        Ok(())
    }

    fn remove(&mut self, position: usize) -> Result<(), Refusal> {
        remove_check(position, self.conditions.len())?;
        self.unlist(position - 1);
        Ok(())
    }

    fn read(&self, value: Option<T::Value>, row: &mut Row)
        ensures row { Shows row.new (λ c. plain_admits T.Test.passes c value) self.now.conditions.items }
    {
        *row = self.row(value);
    }
}
