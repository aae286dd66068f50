// What a condition on a field is, and when it holds.
ghost use Rattle.std.specs.Prelude.{◌≡◌, Bool, true, false, None, Option};

pub mod plain;
pub mod sided;

// What is asked of one field's values.
pub trait Test: Copy {
    type Value: Copy;

    ghost passes: { Self → Self.Value → Bool };

    fn passes_on(&self, value: Self::Value) -> bool
        ensures result { result ≡ passes self.now value };
}

// A condition on one field. Its meaning stands here, with its type, and not with the columns that list it.
pub trait Condition: Copy {
    type Value: Copy;

    // whether it holds on a value, or on an absent field
    ghost admits: { Self → Option Self.Value → Bool };

    // whether it is the condition "any"
    ghost any: { Self → Bool };

    fn is_any(&self) -> bool
        ensures result { result ≡ any self.now };

    fn holds_on(&self, value: Option<Self::Value>) -> bool
        ensures result { result ≡ admits self.now value };

    ghost unasked: { (c : Self) (v : Option Self.Value) → any c ≡ true → admits c v ≡ true };

    ghost absent: { (c : Self) → any c ≡ false → admits c None ≡ false };
}
