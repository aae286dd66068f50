// An IPv4 address: 32 bits, the most significant first.
#[derive(Clone, Copy, PartialEq, Eq, Debug)]
pub struct Address {
    pub bits: u32,
}
