// A set of strings in the order of the alphabet.
ghost use Rattle.std.specs.Prelude.{◌≤◌, length, vec_capacity};
ghost use Rattle.prefixes.specs.Stored.{Ascending, LinkedTo};
ghost use Rattle.prefixes.specs.StoredStrings.{strings, links};

use crate::stored::Stored;

mod methods;
mod ranges;
mod search;

// A string for each condition of a full list, and the empty one.
pub(crate) const ROOM: usize = 513;

// Distinct strings in order, the empty one first, with room for 513.
// A link leads from each string back to the longest that begins it.
#[derive(Drop)]
pub(crate) struct PrefixSet {
    stored: Vec<Stored>,
    ghost ascending: { Ascending (strings stored.items) },
    ghost linked: { LinkedTo (strings stored.items) (links stored.items) (length stored.items) },
    ghost room: { 513 ≤ vec_capacity stored },
}
