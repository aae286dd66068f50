// The range of numbers that a string of bits begins.
ghost use Rattle.std.specs.Prelude.{◌≡◌, ◌&&◌, nat_le, nat_lt};
ghost use Rattle.prefixes.specs.Ranges.{low as low_of, past as past_of};

// The first number that has more than 32 bits.
pub(crate) const END: u64 = 4294967296;

// The numbers of 32 bits that a string begins: from `low` up to `past`, which it does not.
// The library's range cannot be copied, so it can be no part of what can.
#[derive(Clone, Copy)]
pub(crate) struct Range {
    pub low: u64,
    pub past: u64,
}

impl Range {
    pub(crate) fn contains(&self, number: u64) -> bool
        ensures { result ≡ (nat_le self.now.low number && nat_lt number self.now.past) }
    {
        self.low <= number && number < self.past
    }
}

// The range of a string; it is empty where no number of 32 bits begins so.
pub(crate) fn range_of(string: &[u8]) -> Range
    ensures low { result.low ≡ low_of 32 string.now }
    ensures past { result.past ≡ past_of 32 string.now }
{
    let mut width = 32u32;
    let mut size = END;
    let mut low = 0u64;
    for &symbol in string {
        if width == 0 || symbol > 1 {
            return Range {
                low: low + size,
                past: low + size,
            };
        }
        width -= 1;
        size /= 2;
        if symbol == 1 {
            low += size;
        }
    }
    Range {
        low,
        past: low + size,
    }
}
