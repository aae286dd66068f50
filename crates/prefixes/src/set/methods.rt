// The strings of a set, and its edits.
ghost use Rattle.std.specs.Prelude.{◌≡◌, ◌<◌, ◌≤◌, [], ◌∷◌, length, IfOk};
ghost use Rattle.std.specs.List.{insert, remove};
ghost use Rattle.prefixes.specs.Held.{held};
ghost use Rattle.prefixes.specs.Spelled.{spelled};
ghost use Rattle.prefixes.specs.Stored.{Fits, Parent};
ghost use Rattle.prefixes.specs.StoredStrings.{strings};

use super::{PrefixSet, ROOM};
use crate::links::relink;
use crate::stored::Stored;
use crate::symbols::Symbols;
use std::alloc::{AllocError, Global};

impl PrefixSet {
    // Only the empty string, with all the memory that the set will ever want.
    pub(crate) fn new(heap: Global) -> Result<PrefixSet, AllocError>
        ensures { IfOk result (λ s. held s ≡ [] ∷ []) }
    {
        let mut stored = Vec::with_capacity(heap, ROOM)?;
        stored.push_reserved(Stored::new(Symbols::new()));
        Ok(PrefixSet { stored })
    }

    // The stored strings.
    pub(crate) fn as_slice(&self) -> &[Stored]
        ensures { strings result.now ≡ held self.now }
    {
        &self.stored
    }

    // The place of the longest other string that begins the string at a place, which is not the empty one.
    // A type of such places would be taken off again at each use, so each call says it.
    pub(crate) fn parent(&self, at: usize) -> usize
        requires above { 0 < at }
        requires within { at < length (held self.now) }
        ensures { Parent (held self.now) at result }
    {
        self.stored[at].link
    }

    // Stores a string between those before and behind it in the order.
    pub(crate) fn put(&mut self, at: usize, prefix: Symbols)
        requires within { at ≤ length (held self.old) }
        requires room { length (held self.old) < 513 }
        requires fits { Fits (held self.old) (spelled prefix) at }
        ensures { held self.new ≡ insert (held self.old) at (spelled prefix) }
    {
        let _ = self.stored.insert(at, Stored::new(prefix));
        relink(&mut self.stored);
    }

    // Forgets the string at a place, but not the empty one.
    pub(crate) fn take_out(&mut self, at: usize)
        requires above { 0 < at }
        requires within { at < length (held self.old) }
        ensures { held self.new ≡ remove (held self.old) at }
    {
        let _ = self.stored.remove(at);
        relink(&mut self.stored);
    }
}
