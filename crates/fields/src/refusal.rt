// Why a call was turned away: a reason, the part that found it, and a place.
ghost use Rattle.std.specs.Prelude.{◌≡◌, Some};
ghost use Rattle.fields.specs.Refusals.{reason_number, part_text, refusal_text};

use std::fmt;

// The reasons, each with the number by which it is known.
#[derive(Clone, Copy, PartialEq, Eq, Debug)]
pub enum Reason {
    InterfaceName = 1,
    Truncated = 2,
    Version = 3,
    HeaderLength = 4,
    TotalLength = 5,
    Checksum = 6,
    Payload = 7,
    PacketLimit = 8,
    Position = 9,
    ListFull = 10,
    Condition = 11,
    IdentifierLimit = 12,
    ForeignTicket = 13,
}

impl Reason {
    pub fn number(&self) -> u8
        ensures result { result ≡ reason_number self.now }
    {
        *self as u8
    }
}

// The part of the library that turned the call away.
#[derive(Clone, Copy, PartialEq, Eq, Debug)]
pub enum Part {
    Columns,
    Reader,
    Filter,
}

impl fmt::Display for Part {
    ghost output = { λ part. Some (part_text part) };

    fn fmt<W: fmt::Write>(&self, f: &mut fmt::Formatter<W>) -> fmt::Result {
        match self {
            Part::Columns => f.write_str("columns"),
            Part::Reader => f.write_str("reader"),
            Part::Filter => f.write_str("filter"),
        }
    }
}

// A refused call alters nothing.
#[derive(Clone, Copy, PartialEq, Eq, Debug)]
pub struct Refusal {
    pub reason: Reason,
    pub part: Part,
    pub place: usize,
}

impl fmt::Display for Refusal {
    ghost output = { λ refusal. Some (refusal_text refusal) };

    fn fmt<W: fmt::Write>(&self, f: &mut fmt::Formatter<W>) -> fmt::Result {
        let number = self.reason.number();
        let part = self.part;
        let place = self.place;
        write!(f, "refusal {number}, part {part}, place {place}")
    }
}
