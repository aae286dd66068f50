// What the book needs to know of a packet.
ghost use Rattle.std.specs.Prelude.{◌≡◌};
ghost use Rattle.book.specs.Passages.{protocol_of, flow_from, flags_of, opens_new, fits_from, opened_entry};

use crate::entry::{Entry, Side, State};
use crate::flow::{End, Flow, Protocol};
use crate::lifetime::lifetime;
use fields::values::flags::{ACK, FIN, RST, SYN};

#[derive(Clone, Copy, PartialEq, Eq, Debug)]
pub enum Kind {
    // with its flags: any byte, since a narrower type would ask more of callers
    Tcp(u8),
    Udp,
    EchoRequest,
    EchoReply,
    // of no connection: a later fragment, another ICMP message, another protocol
    Unconnected,
}

// Plain numbers only, so that it can outlive the packet. The ends of an unconnected packet do not matter.
#[derive(Clone, Copy, PartialEq, Eq, Debug)]
pub struct Passage {
    pub kind: Kind,
    pub source: End,
    pub destination: End,
}

impl Passage {
    // The protocol of the entries that the packet may fit. An unconnected packet fits none, whatever stands for it here, so this is no From.
    fn protocol(&self) -> Protocol
        ensures result { result ≡ protocol_of self.now.kind }
    {
        match self.kind {
            Kind::Tcp(_) => Protocol::Tcp,
            Kind::Udp => Protocol::Udp,
            Kind::EchoRequest | Kind::EchoReply | Kind::Unconnected => Protocol::Echo,
        }
    }

    // The flow of the entry that the packet fits from the side.
    pub(crate) fn flow(&self, side: Side) -> Flow
        ensures result { result ≡ flow_from self.now side }
    {
        let protocol = self.protocol();
        match side {
            Side::Opener => Flow {
                protocol,
                opener: self.source,
                other: self.destination,
            },
            Side::Other => Flow {
                protocol,
                opener: self.destination,
                other: self.source,
            },
        }
    }

    pub(crate) fn flags(&self) -> Option<u8>
        ensures result { result ≡ flags_of self.now.kind }
    {
        match self.kind {
            Kind::Tcp(flags) => Some(flags),
            _ => None,
        }
    }

    // Whether the packet can fit an entry from the side at all.
    pub(crate) fn fits_from(&self, side: Side) -> bool
        ensures result { result ≡ fits_from side self.now.kind }
    {
        match (side, self.kind) {
            (Side::Opener, Kind::EchoReply) | (Side::Other, Kind::EchoRequest) => false,
            (_, Kind::Unconnected) => false,
            _ => true,
        }
    }

    // Whether the packet opens a connection where it fits none.
    pub(crate) fn opens(&self) -> bool
        ensures result { result ≡ opens_new self.now.kind }
    {
        match self.kind {
            Kind::Udp | Kind::EchoRequest => true,
            Kind::EchoReply | Kind::Unconnected => false,
            Kind::Tcp(flags) => flags & SYN != 0
                && flags & ACK == 0
                && flags & FIN == 0
                && flags & RST == 0,
        }
    }

    // The entry of the connection that the packet opens.
    pub(crate) fn opened(&self, clock: u32) -> Entry
        ensures result { result ≡ opened_entry self.now clock }
    {
        let flow = self.flow(Side::Opener);
        Entry {
            flow,
            state: State::Opened,
            deadline: u64::from(clock) + lifetime(flow.protocol, State::Opened),
        }
    }
}
