// What a pattern has to offer to be listed by a column of prefixes.
ghost use Rattle.std.specs.Prelude.{◌≡◌, ℕ, List};
ghost use Rattle.fields.specs.Strings.{begins};
ghost use Rattle.prefixes.specs.Numbered.{Numbered};
ghost use Rattle.prefixes.specs.Spelled.{spelled};

use crate::symbols::Symbols;
use fields::condition::Test;

pub(crate) mod address;
pub(crate) mod name;

// A pattern that asks how a value begins. Values and patterns are spelled as strings, and a value passes where the pattern's string is its front.
// The trait is public for the columns' sake, whose type names it; its module is not, so no other crate can.
pub trait Prefix: Test {
    ghost front: { Self → List ℕ };

    ghost spelling: { Self.Value → List ℕ };

    // what is true of every value that a program has
    ghost sound: { Self.Value → Type 0 };

    fn front_symbols(&self) -> Symbols
        ensures result { spelled result ≡ front self.now };

    fn spell(value: Self::Value) -> Symbols
        ensures result { spelled result ≡ spelling value };

    // The number of 32 bits that the value is, if it is one.
    fn number(value: Self::Value) -> Option<u32>
        ensures result { Numbered (spelling value) result }
        ensures sound { sound value };

    ghost meets: { (t : Self) (v : Self.Value) → sound v → Self.Test.passes t v ≡ begins (front t) (spelling v) };
}
