// The links among stored strings: from each string back to the longest that begins it.
ghost use Rattle.std.specs.Prelude.{◌≡◌, ◌+◌, ◌<◌, ◌≤◌, true, length};
ghost use Rattle.fields.specs.Strings.{begins};
ghost use Rattle.prefixes.specs.Stored.{at as string_at, Ascending, Covers, LinkedTo};
ghost use Rattle.prefixes.specs.StoredStrings.{strings, links};

use crate::key::Key;
use crate::stored::Stored;

// Follows the links from `from` to the first string that begins the key.
// A loop: only the links show that the walk ends.
pub(crate) fn ascend<K: Key>(stored: &[Stored], from: usize, key: &K) -> usize
    requires within { from < length stored.now }
    requires ascending { Ascending (strings stored.now) }
    requires linked { LinkedTo (strings stored.now) (links stored.now) (from + 1) }
    requires covers { Covers (strings stored.now) (K.Key.spelling key.now) (from + 1) from }
    ensures bound { result ≤ from }
    ensures begun { begins (string_at (strings stored.now) result) (K.Key.spelling key.now) ≡ true }
    ensures covers { Covers (strings stored.now) (K.Key.spelling key.now) (from + 1) result }
{
    let mut at = from;
    while !key.begins_with(&stored[at]) {
        at = stored[at].link;
    }
    at
}

// Links each string to the longest before it that begins it.
// By index, since each step reads the strings before the one that it writes. They are not all linked yet,
// so the functions here are of a slice and not of the set.
pub(crate) fn relink(stored: &mut [Stored])
    requires { Ascending (strings stored.old) }
    ensures strings { strings stored.new ≡ strings stored.old }
    ensures linked { LinkedTo (strings stored.new) (links stored.new) (length stored.new) }
{
    for i in 1..stored.len() {
        let strings = &stored[..];
        let link = ascend(strings, i - 1, &strings[i].symbols);
        stored[i].link = link;
    }
}
