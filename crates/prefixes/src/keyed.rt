// A row for each of a set of strings.
ghost use Rattle.std.specs.Prelude.{◌≡◌, ◌≤◌, length, vec_capacity};
ghost use Rattle.prefixes.specs.Indexed.{kept};

use crate::indexed::IndexedSet;
use rows::Row;

mod edits;
mod methods;

// The row of a string has a one for each condition that holds on every value which begins so.
// The rows lie in a table beside the strings, and not in them: what edits a table of rows, and the laws of one, are those of all columns.
#[derive(Drop)]
pub(crate) struct KeyedRows {
    set: IndexedSet,
    rows: Vec<Row>,
    ghost level: { length rows.items ≡ length (kept set) },
    ghost room: { 513 ≤ vec_capacity rows },
}
