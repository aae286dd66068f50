// A column with a row for each distinct port that is listed, and one for all others.
ghost use Rattle.std.specs.Prelude.{◌≡◌, ℕ, ◌≤◌, vec_len, vec_capacity, slice_index};
ghost use Rattle.rows.specs.Shows.{Shows, TableShows};
ghost use Rattle.ports.specs.Keys.{has};
ghost use Rattle.ports.specs.Ordered.{keys_of, rows_of};
ghost use Rattle.ports.specs.Ports.{port_holds, on_any, named};

use crate::values::ordered::OrderedRows;
use fields::condition::plain::Plain;
use fields::values::port::Port;
use rows::Row;

pub mod methods;
pub(crate) mod naming;
pub(crate) mod ordered;

// The keys of `table` are the ports that conditions name. On any other port, and on an absent one, the same conditions hold: `others`.
#[derive(Drop)]
pub struct ValueColumn {
    conditions: Vec<Plain<Port>>,
    table: OrderedRows,
    others: Row,
    ghost few: { vec_len conditions ≤ 512 },
    ghost room: { 512 ≤ vec_capacity conditions },
    ghost stored: { (v : ℕ) → has (keys_of table) v ≡ named conditions.items v },
    ghost told: { TableShows (rows_of table) (λ c k. port_holds c (slice_index (keys_of table) k)) conditions.items },
    ghost untold: { Shows others on_any conditions.items },
}
