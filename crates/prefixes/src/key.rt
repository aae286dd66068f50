// What is looked for among stored strings.
ghost use Rattle.std.specs.Prelude.{◌≡◌, ℕ, List};
ghost use Rattle.fields.specs.Strings.{begins};
ghost use Rattle.prefixes.specs.Bits.{bits_of};
ghost use Rattle.prefixes.specs.Spelled.{spelled};
ghost use Rattle.prefixes.specs.StoredStrings.{string_of};

use crate::compare;
use crate::stored::Stored;
use crate::symbols::Symbols;

// A key is spelled as a string.
pub(crate) trait Key {
    ghost spelling: { Self → List ℕ };

    // Whether a stored string begins the key.
    fn begins_with(&self, stored: &Stored) -> bool
        ensures result { result ≡ begins (string_of stored.now) (spelling self.now) };
}

impl Key for Symbols {
    ghost spelling = { spelled };

    fn begins_with(&self, stored: &Stored) -> bool {
        compare::begins(stored.symbols.as_slice(), self.as_slice())
    }
}

// A number of 32 bits: the ranges tell the same without its bits.
impl Key for u32 {
    ghost spelling = { bits_of 32 };

    fn begins_with(&self, stored: &Stored) -> bool {
        stored.range.contains(u64::from(*self))
    }
}
