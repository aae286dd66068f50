// The bits of a number as a string of symbols.
ghost use Rattle.std.specs.Prelude.{◌≡◌, ◌≤◌, take};
ghost use Rattle.prefixes.specs.Bits.{bits_of};
ghost use Rattle.prefixes.specs.Spelled.{spelled};

use crate::symbols::Symbols;

// The first `len` of the `width` bits of a number, the most significant first.
pub(crate) fn spell_bits(value: u128, width: usize, len: usize) -> Symbols
    requires width { width ≤ 128 }
    requires len { len ≤ width }
    ensures { spelled result ≡ take len (bits_of width value) }
{
    let mut symbols = Symbols::new();
    // By the place of each bit: there is nothing to walk over but the places.
    for i in 0..len {
        let bit = (value >> (width - 1 - i)) % 2;
        symbols.push(bit as u8);
    }
    symbols
}
