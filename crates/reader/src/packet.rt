// A packet that passed the checks: its parts, and the values of its fields.
use crate::part::Part;
use crate::values::Fields;

#[derive(Clone, Copy)]
pub struct Packet<'a> {
    pub header: Part<'a>,
    pub payload: Part<'a>,
    pub fields: Fields,
}
