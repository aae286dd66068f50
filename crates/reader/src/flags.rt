// The TCP flags among the fields of a packet.
ghost use Rattle.std.specs.Prelude.{◌≡◌};
ghost use Rattle.reader.specs.Values.{flag_bits, flags_held};

use crate::values::Fields;
use fields::values::flags::Flags;

impl Fields {
    // The TCP flags: present where the packet has protocol 6 and is no later fragment.
    pub fn flags(&self) -> Option<Flags>
        ensures result { flag_bits result ≡ flags_held self.now }
    {
        self.flags
    }
}
