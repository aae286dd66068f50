// The look-ups of an indexed set, and its edits.
ghost use Rattle.std.specs.Prelude.{◌≡◌, ◌<◌, ◌≤◌, [], ◌∷◌, length, IfOk};
ghost use Rattle.std.specs.List.{insert, remove};
ghost use Rattle.prefixes.specs.Bits.{bits_of};
ghost use Rattle.prefixes.specs.Indexed.{kept};
ghost use Rattle.prefixes.specs.Placed.{Placed};
ghost use Rattle.prefixes.specs.Spelled.{spelled};
ghost use Rattle.prefixes.specs.Stored.{Longest, Fits, Parent};
ghost use Rattle.prefixes.specs.StoredStrings.{strings};

use super::IndexedSet;
use crate::bits::spell_bits;
use crate::set::PrefixSet;
use crate::stored::Stored;
use crate::stretches::Stretches;
use crate::symbols::Symbols;
use std::alloc::{AllocError, Global};

impl IndexedSet {
    // Only the empty string, with all the memory that the set will ever want.
    pub(crate) fn new(heap: Global) -> Result<IndexedSet, AllocError>
        ensures { IfOk result (λ s. kept s ≡ [] ∷ []) }
    {
        let set = PrefixSet::new(heap)?;
        let stretches = Stretches::new(&set);
        Ok(IndexedSet { set, stretches })
    }

    // Where the string is stored, or else where it belongs.
    pub(crate) fn locate(&self, prefix: &Symbols) -> Result<usize, usize>
        ensures { Placed (kept self.now) (spelled prefix.now) result }
    {
        self.set.locate(prefix)
    }

    // The place of the longest stored string that begins the key.
    pub(crate) fn longest(&self, key: &Symbols) -> usize
        ensures { Longest (kept self.now) (spelled key.now) result }
    {
        self.set.longest(key)
    }

    // The place of the longest other string that begins the string at a place, which is not the empty one.
    pub(crate) fn parent(&self, at: usize) -> usize
        requires above { 0 < at }
        requires within { at < length (kept self.now) }
        ensures { Parent (kept self.now) at result }
    {
        self.set.parent(at)
    }

    // The strings.
    pub(crate) fn as_slice(&self) -> &[Stored]
        ensures { strings result.now ≡ kept self.now }
    {
        self.set.as_slice()
    }

    // The place of the longest stored string that begins the bits of a number.
    pub(crate) fn longest_number(&self, key: u32) -> usize
        ensures { Longest (kept self.now) (bits_of 32 key) result }
    {
        match self.stretches.look_up(key) {
            Some(place) => place,
            None => self.set.longest(&spell_bits(u128::from(key), 32, 32)),
        }
    }

    // Stores a string between those before and behind it in the order.
    pub(crate) fn put(&mut self, at: usize, prefix: Symbols)
        requires within { at ≤ length (kept self.old) }
        requires room { length (kept self.old) < 513 }
        requires fits { Fits (kept self.old) (spelled prefix) at }
        ensures { kept self.new ≡ insert (kept self.old) at (spelled prefix) }
    {
        self.set.put(at, prefix);
        self.stretches.renew(&self.set);
    }

    // Forgets the string at a place, but not the empty one.
    pub(crate) fn take_out(&mut self, at: usize)
        requires above { 0 < at }
        requires within { at < length (kept self.old) }
        ensures { kept self.new ≡ remove (kept self.old) at }
    {
        self.set.take_out(at);
        self.stretches.renew(&self.set);
    }
}
