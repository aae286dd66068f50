// Columns on fields of at most 256 values, each known by a code: a row for each code.
ghost use Rattle.std.specs.Prelude.{◌≡◌, ◌≤◌, vec_len, vec_capacity};
ghost use Rattle.codes.specs.Spreads.{CodesShow, AbsentShows};

use crate::spread::coded::Coded;
use fields::condition::Condition;
use fields::making::{FlagsCondition, LabelCondition, ProtocolCondition};
use rows::Row;

pub mod coded;
pub(crate) mod column;

// The column of the protocol number: a row for each of the 256 protocols.
pub type ProtocolColumn = Spread<ProtocolCondition>;

// The column of the TCP flags: a row for each of the 64 sets of flags.
pub type FlagsColumn = Spread<FlagsCondition>;

// The column of the labels: a row for each of the three.
pub type LabelColumn = Spread<LabelCondition>;

// A list of conditions, with a row for each code and one for an absent field.
#[derive(Drop)]
pub struct Spread<K: Condition>
where
    K::Value: Coded,
{
    conditions: Vec<K>,
    rows: Vec<Row>,
    absent: Row,
    ghost few: { vec_len conditions ≤ 512 },
    ghost room: { 512 ≤ vec_capacity conditions },
    ghost codes: { vec_len rows ≡ K.Value.CODES },
    ghost told: { CodesShow K.admits K.Value.decoded rows.items conditions.items },
    ghost untold: { AbsentShows K.admits absent conditions.items },
}
