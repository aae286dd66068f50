// Who talks to whom.
use fields::values::address::Address;

// With the number that an IPv4 header has for it.
#[derive(Clone, Copy, PartialEq, Eq, Debug)]
pub enum Protocol {
    Tcp = 6,
    Udp = 17,
    Echo = 1,
}

// One end of a connection: an address with a port, or with the echo identifier in the port's place.
#[derive(Clone, Copy, PartialEq, Eq, Debug)]
pub struct End {
    pub address: Address,
    pub port: u16,
}

// The protocol and the two ends of a connection, the opener's first.
#[derive(Clone, Copy, PartialEq, Eq, Debug)]
pub struct Flow {
    pub protocol: Protocol,
    pub opener: End,
    pub other: End,
}
