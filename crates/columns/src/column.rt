// What every column does, whatever its kind.
ghost use Rattle.std.specs.Prelude.{◌≡◌, ◌≤◌, List, [], length, IfOk, Err};
ghost use Rattle.columns.specs.Edits.{column_refusal, insert_answer, insert_after, remove_answer, remove_after};
ghost use Rattle.rows.specs.Shows.{Shows};

use fields::condition::Condition;
use fields::refusal::{Part, Reason, Refusal};
use rows::Row;
use std::alloc::{AllocError, Global};

// A list of at most 512 conditions.
pub const LIMIT: usize = 512;

pub trait Column: Sized + Drop {
    type Condition: Condition;

    // the conditions, position 1 first
    ghost listed: { Self → List Self.Condition };

    // The empty column, with all the memory that it will ever want.
    fn new(heap: Global) -> Result<Self, AllocError>
        ensures later { IfOk result (λ c. listed c ≡ []) };

    // How many conditions are listed.
    fn len(&self) -> usize
        ensures result { result ≡ length (listed self.now) }
        ensures bound { result ≤ 512 };

    // Puts the condition at `position`, counted from 1; what stood there and behind it moves back by one.
    fn insert(&mut self, position: usize, condition: Self::Condition) -> Result<(), Refusal>
        ensures result { result ≡ insert_answer position (length (listed self.old)) }
        ensures later { listed self.new ≡ insert_after position condition (listed self.old) };

    // Takes the condition at `position` out, and closes the gap.
    fn remove(&mut self, position: usize) -> Result<(), Refusal>
        ensures result { result ≡ remove_answer position (length (listed self.old)) }
        ensures later { listed self.new ≡ remove_after position (listed self.old) };

    // Fills the row: the bit of each listed condition is one exactly where the condition holds, and all behind them are zero.
    fn read(&self, value: Option<<Self::Condition as Condition>::Value>, row: &mut Row)
        ensures row { Shows row.new (λ c. Self.Condition.Condition.admits c value) (listed self.now) };
}

// Whether a list of n conditions takes one more at `position`.
pub fn insert_check(position: usize, n: usize) -> Result<(), Refusal>
    ensures result { result ≡ insert_answer position n }
{
    if position < 1 || position - 1 > n {
        return refused(Reason::Position);
    }
    if n >= LIMIT {
        return refused(Reason::ListFull);
    }
    Ok(())
}

// Whether a list of n conditions has one at `position`.
pub fn remove_check(position: usize, n: usize) -> Result<(), Refusal>
    ensures result { result ≡ remove_answer position n }
{
    if position < 1 || position > n {
        return refused(Reason::Position);
    }
    Ok(())
}

fn refused(reason: Reason) -> Result<(), Refusal>
    ensures result { result ≡ Err (column_refusal reason) }
{
    Err(Refusal {
        reason,
        part: Part::Columns,
        place: 0,
    })
}
