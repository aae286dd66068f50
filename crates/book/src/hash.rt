// Where the walk for a flow begins.
ghost use Rattle.std.specs.Prelude.{◌≡◌, ◌<◌};
ghost use Rattle.book.specs.Home.{home};

use crate::flow::Flow;

// A multiplier for each part of a flow. Which flows meet depends on all four, so that nobody who does not know
// them can choose flows that meet.
#[derive(Clone, Copy)]
pub struct Keys {
    pub opener: u64,
    pub other: u64,
    pub ports: u64,
    pub protocol: u64,
}

// A number whose every bit depends on all bits of `x`, one to one.
fn scrambled(x: u64) -> u64 {
    let y = (x ^ (x >> 30)).wrapping_mul(0xbf58_476d_1ce4_e5b9);
    let z = (y ^ (y >> 27)).wrapping_mul(0x94d0_49bb_1331_11eb);
    z ^ (z >> 31)
}

// The n-th multiplier of a seed.
fn key(seed: u64, n: u64) -> u64 {
    scrambled(seed.wrapping_add(n.wrapping_mul(0x9e37_79b9_7f4a_7c15)))
}

impl Keys {
    // The multipliers of a seed.
    pub(crate) fn of(seed: u64) -> Keys {
        Keys {
            opener: key(seed, 1),
            other: key(seed, 2),
            ports: key(seed, 3),
            protocol: key(seed, 4),
        }
    }

    // The slot at which the walk for the flow begins: the top 12 bits of a sum of products, mixed so that flows in a row
    // do not stand in a row.
    pub(crate) fn home(self, flow: Flow) -> usize
        ensures result { result ≡ home self flow }
        ensures below { result < 4096 }
    {
        let ports = u64::from(flow.opener.port) * 0x1_0000 + u64::from(flow.other.port);
        let sum = self
            .opener
            .wrapping_mul(u64::from(flow.opener.address.bits))
            .wrapping_add(self.other.wrapping_mul(u64::from(flow.other.address.bits)))
            .wrapping_add(self.ports.wrapping_mul(ports))
            .wrapping_add(self.protocol.wrapping_mul(u64::from(flow.protocol as u8)));
        let mixed = (sum ^ (sum >> 32)).wrapping_mul(0x9e37_79b9_7f4a_7c15);
        (mixed >> 52) as usize
    }
}
