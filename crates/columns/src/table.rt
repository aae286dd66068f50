// Tables of rows, whatever their rows stand for.
// Each kind of column puts its own bits in: one function for all would take them from a closure, and ask something of it, which no public function here does.
ghost use Rattle.std.specs.Prelude.{ℕ, ◌<◌, length, slice_index_or};
ghost use Rattle.rows.specs.Tables.{Out};
ghost use Rattle.rows.specs.declared.row.Row.{Row};

use rows::Row;

// Takes `place` out of each row.
pub fn remove_each(rows: &mut [Row], place: usize)
    ensures later { (k : ℕ) (d : Row) → k < length rows.old → Out place (slice_index_or rows.old k d) (slice_index_or rows.new k d) }
{
    for row in rows {
        row.remove(place);
    }
}
