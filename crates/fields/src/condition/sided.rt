// A condition as it stands, or inverted.
ghost use Rattle.std.specs.Prelude.{◌≡◌, true, false, Some, None};
ghost use Rattle.fields.specs.Making.{stated as the_stated};
ghost use Rattle.fields.specs.Conditions.{sided_admits, sided_any, plain_side, inverted_side};
ghost use Rattle.fields.specs.Senses.{inverts};
ghost use Rattle.std.proofs.Common.{rules};

use crate::condition::plain::Plain;
use crate::condition::{Condition, Test};

#[derive(Clone, Copy, PartialEq, Eq, Debug)]
pub enum Sense {
    Plain,
    Inverted,
}

// On a present field the inverted condition holds exactly where the plain one does not; on an absent one it does not hold.
#[derive(Clone, Copy, PartialEq, Eq, Debug)]
pub struct Sided<K> {
    condition: K,
    sense: Sense,
}

impl<K: Condition> Sided<K> {
    pub fn plain(condition: K) -> Self
        ensures result { result ≡ plain_side condition }
    {
        Sided {
            condition,
            sense: Sense::Plain,
        }
    }

    // The inverted condition; "any" has none.
    pub fn inverted(condition: K) -> Option<Self>
        ensures result { result ≡ inverted_side K.Condition.any condition }
    {
        if condition.is_any() {
            return None;
        }
        Some(Sided {
            condition,
            sense: Sense::Inverted,
        })
    }

    pub fn condition(&self) -> K
        ensures result { result ≡ self.now.condition }
    {
        self.condition
    }

    pub fn is_inverted(&self) -> bool
        ensures result { result ≡ inverts self.now.sense }
    {
        self.sense == Sense::Inverted
    }
}

impl<T: Test> Sided<Plain<T>> {
    // The condition that states a pattern. It is never an inverted "any".
    pub(crate) fn stated(pattern: T, sense: Sense) -> Self
        ensures result { result ≡ the_stated pattern sense }
    {
        Sided {
            condition: Plain::Is(pattern),
            sense,
        }
    }
}

impl<K: Condition> Condition for Sided<K> {
    type Value = K::Value;

    ghost admits = { λ c v. sided_admits K.Condition.admits c v };

    ghost any = { λ c. sided_any K.Condition.any c };

    ghost unasked = { Prim.search rules };

    ghost absent = { Prim.search rules };

    fn is_any(&self) -> bool {
        !self.is_inverted() && self.condition.is_any()
    }

    fn holds_on(&self, value: Option<K::Value>) -> bool
        ensures result { result ≡ sided_admits K.Condition.admits self.now value }
    {
        let plain = self.condition.holds_on(value);
        match self.sense {
            Sense::Plain => plain,
            Sense::Inverted => value.is_some() && !plain,
        }
    }
}
