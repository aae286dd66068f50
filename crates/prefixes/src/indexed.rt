// A set of strings that also finds numbers of 32 bits fast.
ghost use Rattle.prefixes.specs.Divided.{Divided};
ghost use Rattle.prefixes.specs.Held.{held};

use crate::set::PrefixSet;
use crate::stretches::Stretches;

mod methods;

// A set of strings and, for keys that are numbers of 32 bits, the stretches of numbers with one longest string.
// What is asked of the strings goes on to the set, call by call: in other hands an edit of it would leave the stretches behind.
#[derive(Drop)]
pub(crate) struct IndexedSet {
    set: PrefixSet,
    stretches: Stretches,
    ghost divided: { Divided (held set) stretches },
}
