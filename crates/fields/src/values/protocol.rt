// The protocol number of a packet.
#[derive(Clone, Copy, PartialEq, Eq, Debug)]
pub struct Protocol {
    pub number: u8,
}
