// A column over any other, whose conditions are those of the other, each plain or inverted.
ghost use Rattle.std.specs.Prelude.{◌≡◌, ℕ, min, false, nat_lt};
ghost use Rattle.columns.specs.Sides.{sided, turned};
ghost use Rattle.fields.specs.Conditions.{sided_admits};
ghost use Rattle.rows.specs.Shown.{shown};
ghost use Rattle.rows.specs.Shows.{Shows};

use crate::column::Column;
use fields::condition::Condition;
use fields::condition::sided::Sided;
use fields::refusal::Refusal;
use rows::Row;
use std::alloc::{AllocError, Global};

// `inverted` has a one for each inverted condition.
#[derive(Drop)]
pub struct Inverting<C: Column> {
    below: C,
    inverted: Row,
}

impl<C: Column> Column for Inverting<C> {
    type Condition = Sided<C::Condition>;

    ghost listed = { λ s. sided (C.Column.listed s.below) (shown s.inverted) };

    fn new(heap: Global) -> Result<Self, AllocError> {
        let below = C::new(heap)?;
        Ok(Inverting {
            below,
            inverted: Row::zeros(),
        })
    }

    fn len(&self) -> usize {
        self.below.len()
    }

    fn insert(&mut self, position: usize, condition: Sided<C::Condition>) -> Result<(), Refusal> {
        self.below.insert(position, condition.condition())?;
        self.inverted.insert(position - 1, condition.is_inverted());
        Ok(())
    }

    fn remove(&mut self, position: usize) -> Result<(), Refusal> {
        self.below.remove(position)?;
        self.inverted.remove(position - 1);
        Ok(())
    }

    fn read(&self, value: Option<<C::Condition as Condition>::Value>, row: &mut Row)
        ensures row { Shows row.new (λ c. sided_admits C.Condition.Condition.admits c value) (sided (C.Column.listed self.now.below) (shown self.now.inverted)) }
    {
        let present = value.is_some();
        self.below.read(value, row);
        turn(row, &self.inverted, present, self.below.len());
    }
}

// Turns the row of the plain conditions into that of the conditions as they stand: on a present field the inverted bits
// are flipped, and those behind the list cleared; on an absent one the inverted bits are cleared.
fn turn(row: &mut Row, inverted: &Row, present: bool, count: usize)
    ensures row { (i : ℕ) → shown row.new i ≡ turned (shown row.old i) (shown inverted.now i) present (nat_lt i (min count 512)) }
{
    if present {
        row.flip(inverted);
        row.retain(&Row::ones(count));
    } else {
        row.clear(inverted);
    }
}
