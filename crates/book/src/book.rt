// The book itself.
ghost use Rattle.std.specs.Prelude.{◌≤◌, vec_len, vec_capacity};
ghost use Rattle.book.specs.Places.{Apart};
ghost use Rattle.book.specs.Index.{Reached};
ghost use Rattle.book.specs.Live.{NoneBefore};

use crate::entry::Entry;
use crate::index::Index;

// How many live connections there is room for.
pub(crate) const CAPACITY: usize = 1024;

// At most 1,024 entries in any order, no two of one flow. An entry stays a while after its deadline, until its place is wanted.
#[derive(Drop)]
pub struct Book {
    pub(crate) entries: Vec<Entry>,
    pub(crate) index: Index,
    // no deadline is before this time
    pub(crate) earliest: u64,
    ghost room: { 1024 ≤ vec_capacity entries },
    ghost few: { vec_len entries ≤ 1024 },
    ghost reached: { Reached index.keys index.slots entries.items (vec_len entries) },
    ghost apart: { Apart entries.items },
    ghost waiting: { NoneBefore earliest entries.items },
}
