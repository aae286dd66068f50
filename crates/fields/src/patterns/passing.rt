// Which values pass the patterns of protocols, ports, flags and labels.
ghost use Rattle.std.specs.Prelude.{◌≡◌};
ghost use Rattle.fields.specs.Passing.{protocol_passes, port_passes, flags_pass, label_passes};

use crate::condition::Test;
use crate::patterns::flags::FlagsPattern;
use crate::patterns::label::LabelSet;
use crate::patterns::protocol::ProtocolNumber;
use crate::values::flags::Flags;
use crate::values::label::Label;
use crate::values::port::Port;
use crate::values::protocol::Protocol;

impl Test for ProtocolNumber {
    type Value = Protocol;

    ghost passes = { protocol_passes };

    fn passes_on(&self, value: Protocol) -> bool {
        value.number == self.number()
    }
}

// Every port is lawful, so a port is its own pattern.
impl Test for Port {
    type Value = Port;

    ghost passes = { port_passes };

    fn passes_on(&self, value: Port) -> bool {
        value.number == self.number
    }
}

impl Test for FlagsPattern {
    type Value = Flags;

    ghost passes = { flags_pass };

    fn passes_on(&self, value: Flags) -> bool {
        value.bits() & self.mask() == self.wanted()
    }
}

impl Test for LabelSet {
    type Value = Label;

    ghost passes = { label_passes };

    fn passes_on(&self, value: Label) -> bool {
        self.members() & value.value() != 0
    }
}
