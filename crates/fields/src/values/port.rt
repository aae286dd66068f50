// A TCP or UDP port.
#[derive(Clone, Copy, PartialEq, Eq, Debug)]
pub struct Port {
    pub number: u16,
}
