// One 64-bit word of a row. Its places are counted from the most significant bit, which is place 0.
ghost use Rattle.std.specs.Prelude.{◌≡◌, ℕ, ◌<◌, ◌≤◌, nat_lt};
ghost use Rattle.rows.specs.Bits.{top, put_in, joined_out, after_last, before_first};

// The word with `value` put in at `place`: what stood there and behind it moves back by one, and the last place falls off.
pub(crate) fn put_in(word: u64, place: u32, value: bool) -> u64
    requires { place < 64 }
    ensures { (i : ℕ) → i < 64 → top result i ≡ put_in (top word) place value i }
{
    let behind = u64::MAX >> place;
    (word & !behind) | (value as u64) << (63 - place) | (word & behind) >> 1
}

// The word without what stands at `place`: what stood behind it moves forward, and the first place of `next` follows.
pub(crate) fn take_out(word: u64, place: u32, next: u64) -> u64
    requires { place < 64 }
    ensures { (i : ℕ) → i < 64 → top result i ≡ joined_out (top word) (top next) place i }
{
    let behind = u64::MAX >> place;
    (word & !behind) | (word << 1 & behind) | next >> 63
}

// The word moved back by one place, behind the last place of `previous`.
pub(crate) fn back_by_one(word: u64, previous: u64) -> u64
    ensures { (i : ℕ) → i < 64 → top result i ≡ after_last (top previous) (top word) i }
{
    word >> 1 | previous << 63
}

// The word moved forward by one place, before the first place of `next`.
pub(crate) fn forward_by_one(word: u64, next: u64) -> u64
    ensures { (i : ℕ) → i < 64 → top result i ≡ before_first (top word) (top next) i }
{
    word << 1 | next >> 63
}

// Ones at the first `count` places, and zeros behind them.
pub(crate) fn leading_ones(count: u32) -> u64
    requires { count ≤ 64 }
    ensures { (i : ℕ) → i < 64 → top result i ≡ nat_lt i count }
{
    if count == 64 {
        u64::MAX
    } else {
        !(u64::MAX >> count)
    }
}
