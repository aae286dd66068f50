// The header that the payload of a packet begins with, by its protocol.
ghost use Rattle.std.specs.Prelude.{◌≡◌, ◌≤◌, length, MatchResult};
ghost use Rattle.reader.specs.Checks.{least_payload};
ghost use Rattle.reader.specs.Values.{ports_at, ports_of, flag_bits, flags_of, echo_kind, echo_of};

use crate::datagram::Datagram;
use crate::numbers::{octet, word};
use crate::refuse::refuse_if;
use crate::values::{Echo, EchoKind, Ports};
use fields::refusal::{Reason, Refusal};
use fields::values::flags::Flags;
use fields::values::port::Port;

const ICMP: u8 = 1;

const TCP: u8 = 6;

const UDP: u8 = 17;

// A payload that is not shorter than the header of its protocol.
#[derive(Clone, Copy)]
pub(crate) struct Transport<'a> {
    protocol: u8,
    payload: &'a [u8],
    ghost enough: { least_payload protocol ≤ length payload.now },
}

impl<'a> Transport<'a> {
    ghost use Rattle.reader.specs.Stages.{Begins, IsShort};

    // What the payload begins with; a later fragment has no header of its protocol.
    pub(crate) fn of(datagram: Datagram<'a>) -> Result<Option<Self>, Refusal>
        ensures result { MatchResult result (Begins datagram.entry) (IsShort datagram.entry) }
    {
        let header = datagram.header;
        if header.fragment_offset() != 0 {
            return Ok(None);
        }
        let protocol = header.protocol();
        let payload = datagram.payload;
        refuse_if(
            payload.len() < least(protocol),
            Reason::Payload,
            header.bytes.len(),
        )?;
        Ok(Some(Transport { protocol, payload }))
    }

    pub(crate) fn ports(&self) -> Option<Ports>
        ensures result { result ≡ ports_of self.now.protocol self.now.payload.now }
    {
        match self.protocol {
            TCP | UDP => Some(ports_at(self.payload)),
            _ => None,
        }
    }

    pub(crate) fn flags(&self) -> Option<Flags>
        ensures result { flag_bits result ≡ flags_of self.now.protocol self.now.payload.now }
    {
        (self.protocol == TCP).then(|| Flags::of(octet(self.payload, 13)))
    }

    pub(crate) fn echo(&self) -> Option<Echo>
        ensures result { result ≡ echo_of self.now.protocol self.now.payload.now }
    {
        if self.protocol != ICMP {
            return None;
        }
        let kind = kind(octet(self.payload, 0))?;
        Some(Echo {
            kind,
            identifier: word(self.payload, 4),
        })
    }
}

// How many bytes the header of a protocol has at least.
fn least(protocol: u8) -> usize
    ensures result { result ≡ least_payload protocol }
{
    match protocol {
        TCP => 20,
        UDP | ICMP => 8,
        _ => 0,
    }
}

// The ports, with which the headers of TCP and UDP begin alike.
pub(crate) fn ports_at(payload: &[u8]) -> Ports
    requires { 4 ≤ length payload.now }
    ensures result { result ≡ ports_at payload.now }
{
    Ports {
        source: Port {
            number: word(payload, 0),
        },
        destination: Port {
            number: word(payload, 2),
        },
    }
}

// What an ICMP message is to an echo. A TryFrom would need an error that nobody reads.
fn kind(message: u8) -> Option<EchoKind>
    ensures result { result ≡ echo_kind message }
{
    match message {
        8 => Some(EchoKind::Request),
        0 => Some(EchoKind::Reply),
        _ => None,
    }
}
