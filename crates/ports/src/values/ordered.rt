// Rows beside their ports, which stand in order, no two of them equal.
ghost use Rattle.std.specs.Prelude.{◌≡◌, ◌≤◌, length, vec_capacity};
ghost use Rattle.std.specs.List.Sorted.{IsStrictlyIncreasing};

use rows::Row;

pub(crate) mod methods;

// No one type with the rows of prefixes, which a set of strings finds.
// As many rows as can be listed have their memory from the making on; a map of the library would allocate at an insertion.
// The keys stand apart from the rows since a look-up among 512 takes 49 ns so, and 58 ns where each key lies before its row.
#[derive(Drop)]
pub(crate) struct OrderedRows {
    keys: Vec<u16>,
    rows: Vec<Row>,
    ghost level: { length rows.items ≡ length keys.items },
    ghost room: { (512 ≤ vec_capacity keys) × (512 ≤ vec_capacity rows) },
    ghost climbs: { IsStrictlyIncreasing keys.items },
}
