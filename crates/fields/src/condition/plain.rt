// A condition that is not inverted.
ghost use Rattle.std.specs.Prelude.{◌≡◌};
ghost use Rattle.fields.specs.Conditions.{plain_admits, plain_any};
ghost use Rattle.std.proofs.Common.{rules};

use crate::condition::{Condition, Test};

// "Any", or a pattern of values. On an absent field no pattern holds.
// No Option: its None would say that a condition is missing, and "any" is a condition that holds everywhere.
#[derive(Clone, Copy, PartialEq, Eq, Debug)]
pub enum Plain<T> {
    Any,
    Is(T),
}

impl<T: Test> Condition for Plain<T> {
    type Value = T::Value;

    ghost admits = { λ c v. plain_admits T.Test.passes c v };

    ghost any = { plain_any };

    ghost unasked = { Prim.search rules };

    ghost absent = { Prim.search rules };

    fn is_any(&self) -> bool {
        match self {
            Plain::Any => true,
            Plain::Is(_) => false,
        }
    }

    fn holds_on(&self, value: Option<T::Value>) -> bool
        ensures result { result ≡ plain_admits T.Test.passes self.now value }
    {
        match (self, value) {
            (Plain::Any, _) => true,
            (Plain::Is(_), None) => false,
            (Plain::Is(pattern), Some(present)) => pattern.passes_on(present),
        }
    }
}
