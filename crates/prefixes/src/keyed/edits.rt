// A bit more in each row.
ghost use Rattle.std.specs.Prelude.{◌≡◌, ℕ, ◌<◌, length, slice_index_or};
ghost use Rattle.std.specs.Option.{option_map};
ghost use Rattle.rows.specs.Tables.{Put};
ghost use Rattle.rows.specs.declared.row.Row.{Row};
ghost use Rattle.prefixes.specs.Fronts.{covers as covers_all};
ghost use Rattle.prefixes.specs.Spelled.{spelled};
ghost use Rattle.prefixes.specs.Stored.{at};
ghost use Rattle.prefixes.specs.StoredStrings.{strings};

use crate::compare::begins;
use crate::stored::Stored;
use crate::symbols::Symbols;
use rows::Row;

// Whether a condition with this front holds on every value that begins with the string.
pub(crate) fn covers(front: &Option<Symbols>, string: &Symbols) -> bool
    ensures { result ≡ covers_all (option_map spelled front.now) (spelled string.now) }
{
    match front {
        None => true,
        Some(prefix) => begins(prefix.as_slice(), string.as_slice()),
    }
}

// Puts into each row, at `place`, whether the front covers the string of the row. Not shared with other columns: `columns::table` says why.
pub(crate) fn insert_each(
    rows: &mut [Row],
    stored: &[Stored],
    place: usize,
    front: &Option<Symbols>,
)
    requires { length rows.old ≡ length stored.now }
    ensures { (k : ℕ) (d : Row) → k < length rows.old → Put place (covers_all (option_map spelled front.now) (at (strings stored.now) k)) (slice_index_or rows.old k d) (slice_index_or rows.new k d) }
{
    // Each string is read by its index, since proofs know nothing of rows that are written through a zip of them with the strings.
    for (i, row) in rows.iter_mut().enumerate() {
        let bit = covers(front, &stored[i].symbols);
        row.insert(place, bit);
    }
}
