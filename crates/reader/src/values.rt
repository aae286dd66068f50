// The values of a packet's fields. A field that the packet does not have is None.
use fields::values::address::Address;
use fields::values::flags::Flags;
use fields::values::port::Port;
use fields::values::protocol::Protocol;

// The ports of TCP or UDP.
#[derive(Clone, Copy)]
pub struct Ports {
    pub source: Port,
    pub destination: Port,
}

#[derive(Clone, Copy, PartialEq, Eq, Debug)]
pub enum EchoKind {
    Request,
    Reply,
}

// An ICMP echo message; request and reply have one identifier.
#[derive(Clone, Copy, PartialEq, Eq, Debug)]
pub struct Echo {
    pub kind: EchoKind,
    pub identifier: u16,
}

#[derive(Clone, Copy)]
pub struct Fields {
    pub source: Address,
    pub destination: Address,
    pub protocol: Protocol,
    // where the payload belongs in the whole datagram, in units of 8 bytes
    pub offset: u16,
    // whether the offset is above 0: a fragment behind the first, with no transport header of its own; hosts read
    // the field, so it stays beside the offset
    pub later: bool,
    pub ports: Option<Ports>,
    pub flags: Option<Flags>,
    pub echo: Option<Echo>,
}
