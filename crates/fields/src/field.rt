// The eight fields, in their fixed order, and the actions of rules.
ghost use Rattle.std.specs.Prelude.{◌≡◌};
ghost use Rattle.fields.specs.Fields.{field_number};

#[derive(Clone, Copy, PartialEq, Eq, Debug)]
pub enum Field {
    Source = 1,
    Destination = 2,
    Protocol = 3,
    SourcePort = 4,
    DestinationPort = 5,
    Flags = 6,
    Label = 7,
    Interface = 8,
}

impl Field {
    // The field's place in the fixed order, from 1.
    pub fn number(&self) -> usize
        ensures result { result ≡ field_number self.now }
    {
        *self as usize
    }
}

// What becomes of a packet.
#[derive(Clone, Copy, PartialEq, Eq, Debug)]
pub enum Action {
    Accept,
    Drop,
}
