// What every column of prefixes is, whatever its field.
ghost use Rattle.std.specs.Prelude.{◌≤◌, vec_len, vec_capacity};
ghost use Rattle.fields.specs.Conditions.{plain_any};
ghost use Rattle.prefixes.specs.Tables.{TableTold, TableStores};
ghost use Rattle.rows.specs.Shows.{Shows};

use crate::keyed::KeyedRows;
use crate::prefix::Prefix;
use fields::condition::plain::Plain;
use rows::Row;

mod methods;

// A list of conditions, the rows of their fronts, and the row of those that hold on an absent field.
#[derive(Drop)]
pub struct PrefixColumn<T: Prefix> {
    conditions: Vec<Plain<T>>,
    keyed: KeyedRows,
    absent: Row,
    ghost few: { vec_len conditions ≤ 512 },
    ghost room: { 512 ≤ vec_capacity conditions },
    ghost bare: { Shows absent plain_any conditions.items },
    ghost told: { TableTold T.Prefix.front conditions.items keyed },
    ghost stored: { TableStores T.Prefix.front conditions.items keyed },
}
