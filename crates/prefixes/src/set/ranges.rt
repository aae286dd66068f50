// The numbers that the strings of a set begin.
ghost use Rattle.std.specs.Prelude.{ℕ, ◌+◌, ◌<◌, ◌≤◌, length};
ghost use Rattle.prefixes.specs.Held.{held};
ghost use Rattle.prefixes.specs.Ranges.{low as low_of, past as past_of};
ghost use Rattle.prefixes.specs.Stored.{at as string_at};

use super::PrefixSet;

impl PrefixSet {
    // The last string from `from` on whose low is not above the key.
    // Step by step, since the calls for rising keys together pass each string once.
    pub(crate) fn advance(&self, from: usize, key: u64) -> usize
        requires within { from < length (held self.now) }
        requires low { low_of 32 (string_at (held self.now) from) ≤ key }
        ensures within { result < length (held self.now) }
        ensures low { low_of 32 (string_at (held self.now) result) ≤ key }
        ensures high { result + 1 < length (held self.now) → key < low_of 32 (string_at (held self.now) (result + 1)) }
    {
        let mut last = from;
        while last + 1 < self.stored.len() && self.stored[last + 1].range.low <= key {
            last += 1;
        }
        last
    }

    // Where the stretch of an answer ends: behind its range, or at the low of the string after the last.
    pub(crate) fn until(&self, last: usize, answer: usize) -> u64
        requires last { last < length (held self.now) }
        requires answer { answer < length (held self.now) }
        ensures past { result ≤ past_of 32 (string_at (held self.now) answer) }
        ensures low { last + 1 < length (held self.now) → result ≤ low_of 32 (string_at (held self.now) (last + 1)) }
        ensures least { (s : ℕ) → s < past_of 32 (string_at (held self.now) answer) → (last + 1 < length (held self.now) → s < low_of 32 (string_at (held self.now) (last + 1))) → s < result }
    {
        let past = self.stored[answer].range.past;
        match self.stored.get(last + 1) {
            Some(next) => past.min(next.range.low),
            None => past,
        }
    }
}
