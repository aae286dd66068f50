// The search for a key among the strings of a set.
ghost use Rattle.std.specs.Prelude.{◌≡◌, ℕ, ◌+◌, ◌<◌, ◌≤◌, true, false, length};
ghost use Rattle.fields.specs.Strings.{begins};
ghost use Rattle.prefixes.specs.Held.{held};
ghost use Rattle.prefixes.specs.Placed.{Placed};
ghost use Rattle.prefixes.specs.Spelled.{spelled};
ghost use Rattle.prefixes.specs.Stored.{at as string_at, Covers, Longest};
ghost use Rattle.prefixes.specs.Strings.{ordered as in_order};

use super::PrefixSet;
use crate::compare::{ordered, precedes, shared};
use crate::key::Key;
use crate::links::ascend;
use crate::symbols::Symbols;

impl PrefixSet {
    // How many of the strings do not come behind the key.
    // The key shares at least `below` symbols with the last string known not to, and `above`
    // with the first known to, so all strings between share the smaller number.
    // The library's search would compare each string from its first symbol on.
    fn rank(&self, key: &Symbols) -> usize
        ensures some { 0 < result }
        ensures within { result ≤ length (held self.now) }
        ensures low { (i : ℕ) → i < result → in_order (string_at (held self.now) i) (spelled key.now) ≡ true }
        ensures high { (i : ℕ) → result ≤ i → i < length (held self.now) → in_order (string_at (held self.now) i) (spelled key.now) ≡ false }
    {
        let symbols = key.as_slice();
        let mut low = 1;
        let mut high = self.stored.len();
        let mut below = 0usize;
        let mut above = 0usize;
        while low < high {
            let middle = low + (high - low) / 2;
            let string = self.stored[middle].symbols.as_slice();
            let at = shared(string, symbols, below.min(above));
            if precedes(string, symbols, at) {
                low = middle + 1;
                below = at;
            } else {
                high = middle;
                above = at;
            }
        }
        low
    }

    // Where the string is stored, or else where it belongs.
    pub(crate) fn locate(&self, prefix: &Symbols) -> Result<usize, usize>
        ensures { Placed (held self.now) (spelled prefix.now) result }
    {
        let count = self.rank(prefix);
        let last = count - 1;
        if ordered(prefix.as_slice(), self.stored[last].symbols.as_slice()) {
            Ok(last)
        } else {
            Err(count)
        }
    }

    // The place of the longest stored string that begins the key.
    pub(crate) fn longest(&self, key: &Symbols) -> usize
        ensures { Longest (held self.now) (spelled key.now) result }
    {
        self.longest_to(self.rank(key) - 1, key)
    }

    // The place of the longest string up to `last` that begins the key, where the string at `last` lies right before the key.
    pub(crate) fn longest_to<K: Key>(&self, last: usize, key: &K) -> usize
        requires within { last < length (held self.now) }
        requires covers { Covers (held self.now) (K.Key.spelling key.now) (last + 1) last }
        ensures bound { result ≤ last }
        ensures begun { begins (string_at (held self.now) result) (K.Key.spelling key.now) ≡ true }
        ensures covers { Covers (held self.now) (K.Key.spelling key.now) (last + 1) result }
    {
        ascend(&self.stored, last, key)
    }
}
