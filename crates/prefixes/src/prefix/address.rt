// Address prefixes: the first bits of an address.
ghost use Rattle.std.specs.Prelude.{◌^◌, ◌<◌};
ghost use Rattle.prefixes.specs.Spelling.{address_front, address_spelling};
ghost use Rattle.prefixes.specs.SpellingLaws.{address_meets};

use super::Prefix;
use crate::bits::spell_bits;
use crate::symbols::Symbols;
use fields::condition::Test;
use fields::patterns::address::AddressPrefix;
use fields::values::address::Address;

impl Prefix for AddressPrefix {
    ghost front = { address_front };

    ghost spelling = { address_spelling };

    ghost sound = { λ a. a.bits < 2 ^ 32 };

    ghost meets = { address_meets };

    fn front_symbols(&self) -> Symbols {
        spell_bits(u128::from(self.bits()), 32, self.length() as usize)
    }

    fn spell(value: Address) -> Symbols {
        spell_bits(u128::from(value.bits), 32, 32)
    }

    fn number(value: Address) -> Option<u32> {
        Some(value.bits)
    }
}
