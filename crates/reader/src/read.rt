// Reading a packet: its checks, in their order, and then its parts and fields.
ghost use Rattle.reader.specs.Stages.{Begins};
ghost use Rattle.reader.specs.Values.{FieldsOf};
ghost use Rattle.reader.specs.Answers.{ReadAs};

use crate::checksum::ones_sum;
use crate::datagram::Datagram;
use crate::packet::Packet;
use crate::part::Part;
use crate::refuse::refuse_if;
use crate::transport::Transport;
use crate::values::Fields;
use fields::refusal::{Reason, Refusal};
use fields::values::protocol::Protocol;

// The fields of a packet, by what its payload begins with.
fn values(datagram: Datagram, transport: Option<Transport>) -> Fields
    requires { Begins datagram transport }
    ensures result { FieldsOf datagram.entry.header.bytes.now datagram.entry.payload.now result }
{
    let header = datagram.header;
    let offset = header.fragment_offset();
    // One match for all three, and no `and_then` for each: so a caller takes in the whole of `read`.
    let (ports, flags, echo) = match transport {
        Some(t) => (t.ports(), t.flags(), t.echo()),
        None => (None, None, None),
    };
    Fields {
        source: header.source(),
        destination: header.destination(),
        protocol: Protocol {
            number: header.protocol(),
        },
        offset,
        later: transport.is_none(),
        ports,
        flags,
        echo,
    }
}

impl<'a> Packet<'a> {
    // Checks the packet and takes it apart; what lies behind its total length is left out.
    pub fn read(bytes: &'a [u8]) -> Result<Packet<'a>, Refusal>
        ensures result { ReadAs bytes.now result }
    {
        let datagram = Datagram::cut(bytes)?;
        let header = datagram.header;
        refuse_if(ones_sum(header.bytes) != 0xffff, Reason::Checksum, 10)?;
        let transport = Transport::of(datagram)?;
        let start = header.bytes.len();
        Ok(Packet {
            header: Part {
                bytes: header.bytes,
                place: 0,
            },
            payload: Part {
                bytes: datagram.payload,
                place: start,
            },
            fields: values(datagram, transport),
        })
    }
}
