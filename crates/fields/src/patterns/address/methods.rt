// The making of address prefixes, and which addresses pass them.
ghost use Rattle.std.specs.Prelude.{◌≡◌};
ghost use Rattle.fields.specs.Addresses.{within, MadePrefix};

use super::AddressPrefix;
use crate::condition::Test;
use crate::values::address::Address;

impl AddressPrefix {
    // None where the length is above 32, or a bit behind it is one.
    pub(crate) fn new(bits: u32, length: u32) -> Option<AddressPrefix>
        ensures result { MadePrefix bits length result }
    {
        if length > 32 {
            return None;
        }
        let behind = 32 - length;
        if u64::from(bits) % (1u64 << behind) != 0 {
            return None;
        }
        Some(AddressPrefix { bits, length })
    }

    pub fn bits(&self) -> u32
        ensures result { result ≡ self.now.bits }
    {
        self.bits
    }

    pub fn length(&self) -> u32
        ensures result { result ≡ self.now.length }
    {
        self.length
    }
}

impl Test for AddressPrefix {
    type Value = Address;

    ghost passes = { within };

    fn passes_on(&self, value: Address) -> bool {
        let behind = 32 - self.length;
        u64::from(value.bits) >> behind == u64::from(self.bits) >> behind
    }
}
