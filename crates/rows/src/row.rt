// A row of bits, one for each of 512 places. Place 0 is the most significant bit of word 0.
ghost use Rattle.std.specs.Prelude.{◌≡◌, ℕ, ◌+◌, ◌^◌, ◌<◌, ◌≤◌, min, true, false, not, ◌&&◌, MatchBool, MatchOption, length, nat_lt, slice_index};
ghost use Rattle.rows.specs.Bits.{differs};
ghost use Rattle.rows.specs.Shown.{shown};
ghost use Rattle.rows.specs.Tables.{Put, Out};

use crate::word;
use std::array;

const WORDS: usize = 8;

pub const PLACES: usize = 512;

#[derive(Clone, Copy, PartialEq, Eq, Debug)]
pub struct Row {
    words: [u64; 8],
}

impl Row {
    // The row without a one.
    pub fn zeros() -> Self
        ensures { (i : ℕ) → shown result i ≡ false }
    {
        Row { words: [0; WORDS] }
    }

    // Ones at the first `n` places, and zeros behind them.
    pub fn ones(n: usize) -> Self
        ensures { (i : ℕ) → shown result i ≡ nat_lt i (min n 512) }
    {
        Row {
            words: array::from_fn(|k| word::leading_ones(n.saturating_sub(64 * k).min(64) as u32)),
        }
    }

    // The eight words, that of the first 64 places first.
    pub fn words(&self) -> [u64; 8]
        ensures result { result ≡ self.now.words }
    {
        let words = self.words;
        words
    }

    // What stands at `place`, and false past the last one.
    pub fn get(&self, place: usize) -> bool
        ensures { result ≡ shown self.now place }
    {
        if place >= PLACES {
            return false;
        }
        self.words[place / 64] >> (63 - place % 64) & 1 == 1
    }

    // Puts `value` in at `place`: what stood there and behind it moves back by one, and the last place falls off.
    pub fn insert(&mut self, place: usize, value: bool)
        ensures { Put place value self.old self.new }
    {
        if place >= PLACES {
            return;
        }
        let first = place / 64;
        // By index, since each word takes in a bit of its neighbour: a new array by `from_fn` takes 18 ns a row and this 7, and an edit goes over some 2,000.
        for k in (first + 1..WORDS).rev() {
            self.words[k] = word::back_by_one(self.words[k], self.words[k - 1]);
        }
        self.words[first] = word::put_in(self.words[first], (place % 64) as u32, value);
    }

    // Takes out what stands at `place`: what stood behind it moves forward by one, and the last place becomes zero.
    pub fn remove(&mut self, place: usize)
        ensures { Out place self.old self.new }
    {
        if place >= PLACES {
            return;
        }
        let first = place / 64;
        self.words[first] = word::take_out(
            self.words[first],
            (place % 64) as u32,
            self.word_after(first),
        );
        // By index, as in `insert`.
        for k in first + 1..WORDS {
            self.words[k] = word::forward_by_one(self.words[k], self.word_after(k));
        }
    }

    // The word behind word k, or zero where that is the last.
    fn word_after(&self, k: usize) -> u64
        ensures { result ≡ slice_index self.now.words (k + 1) }
    {
        if k < WORDS - 1 { self.words[k + 1] } else { 0 }
    }

    // Keeps the ones that `other` has too.
    pub fn retain(&mut self, other: &Row)
        ensures { (i : ℕ) → shown self.new i ≡ (shown self.old i && shown other.now i) }
    {
        self.combine(other, |own, others| own & others);
    }

    // Keeps the ones that `other` has not.
    pub fn clear(&mut self, other: &Row)
        ensures { (i : ℕ) → shown self.new i ≡ (shown self.old i && not (shown other.now i)) }
    {
        self.combine(other, |own, others| own & !others);
    }

    // Turns each place over at which `other` has a one.
    pub fn flip(&mut self, other: &Row)
        ensures { (i : ℕ) → shown self.new i ≡ differs (shown self.old i) (shown other.now i) }
    {
        self.combine(other, |own, others| own ^ others);
    }

    // Replaces each word by what `join` makes of it and the other row's.
    fn combine<F: Fn(u64, u64) -> u64>(&mut self, other: &Row, join: F)
        requires { F.IsAlwaysCallable join }
        ensures long { length self.new.words ≡ 8 }
        ensures each { (k : ℕ) → k < 8 → (slice_index other.now.words k < 2 ^ 64) × F.post join (slice_index self.old.words k) (slice_index other.now.words k) (slice_index self.new.words k) }
    {
        self.words = array::from_fn(|k| join(self.words[k], other.words[k]));
    }

    // Whether a one remains.
    pub fn any(&self) -> bool
        ensures { MatchBool result ((p : ℕ) × (shown self.now p ≡ true)) ((i : ℕ) → shown self.now i ≡ false) }
    {
        self.first().is_some()
    }

    // The first place with a one.
    pub fn first(&self) -> Option<usize>
        ensures { MatchOption result ((i : ℕ) → shown self.now i ≡ false) (λ p. (shown self.now p ≡ true) × ((i : ℕ) → i < p → shown self.now i ≡ false)) }
    {
        let k = self.words.iter().position(|word| *word != 0)?;
        Some(64 * k + self.words[k].leading_zeros() as usize)
    }
}
