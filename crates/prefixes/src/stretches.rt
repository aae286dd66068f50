// The numbers of 32 bits, divided into stretches that have one longest stored front.
ghost use Rattle.std.specs.Prelude.{◌≡◌, ◌<◌, slice_index};
ghost use Rattle.prefixes.specs.Ranges.{Padded};

mod methods;

// A power of two, for the steps of a look-up, and one more, at which the last stretch ends.
const STARTS: usize = 1025;

// Where each stretch starts, and the place of its longest string; how many stretches there are, and where the last ends.
// Two arrays side by side: a look-up in one array of both takes 15 ns, and 12 in these (10 million look-ups of each).
// They are full size, padded behind the last stretch, so that each look-up takes the same ten steps.
#[derive(Drop)]
pub(crate) struct Stretches {
    starts: [u64; STARTS],
    answers: [usize; STARTS],
    count: usize,
    ghost some: { (0 < count) × (count < 1025) × (slice_index starts 0 ≡ 0) },
    ghost padded: { Padded starts count },
}
