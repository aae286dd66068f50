// What the reader says of a packet.
use fields::refusal::Refusal;
use reader::packet::Packet;
use reader::part::Part;
use reader::values::Fields;
use std::io;
use std::net::Ipv4Addr;

fn part(rt: &HostRuntime, title: &str, part: Part<'_>) -> io::Result<()> {
    print!(rt; "  {title} {} bytes at {}:", part.bytes.len(), part.place)?;
    for byte in part.bytes {
        print!(rt; " {byte:02x}")?;
    }
    println!(rt; "")
}

fn fields(rt: &HostRuntime, fields: &Fields) -> io::Result<()> {
    let source = Ipv4Addr::from_bits(fields.source.bits);
    println!(rt; "  source {source}")?;
    let destination = Ipv4Addr::from_bits(fields.destination.bits);
    println!(rt; "  destination {destination}")?;
    let protocol = fields.protocol.number;
    println!(rt;
        "  protocol {protocol}, offset {}, later {}",
        fields.offset, fields.later
    )?;
    if let Some(ports) = fields.ports {
        println!(rt;
            "  ports {} to {}",
            ports.source.number, ports.destination.number
        )?;
    }
    if let Some(flags) = fields.flags() {
        println!(rt; "  flags {}", flags.bits())?;
    }
    if let Some(echo) = fields.echo {
        println!(rt; "  echo {:?}, identifier {}", echo.kind, echo.identifier)?;
    }
    Ok(())
}

// In the words of the stored output, which are not the refusal's own.
pub(crate) fn refusal(rt: &HostRuntime, title: &str, refusal: Refusal) -> io::Result<()> {
    let Refusal {
        reason,
        part,
        place,
    } = refusal;
    println!(rt;
        "{title}: refusal {}, {part:?}, place {place}",
        reason.number()
    )
}

pub(crate) fn answer(rt: &HostRuntime, title: &str, bytes: &[u8]) -> io::Result<()> {
    match Packet::read(bytes) {
        Ok(packet) => {
            println!(rt; "{title}: accepted")?;
            part(rt, "header", packet.header)?;
            part(rt, "payload", packet.payload)?;
            fields(rt, &packet.fields)
        }
        Err(found) => refusal(rt, title, found),
    }
}
