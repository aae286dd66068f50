// Reads conditions, values and rules in their notation, writes them again, and prints what came of each.
#![tactic(auto)]

use fields::field::Field;
use fields::making::{
    AddressCondition, FlagsCondition, LabelCondition, NameCondition, PortCondition,
    ProtocolCondition,
};
use fields::refusal::Refusal;
use notation::condition::{Notation, Written};
use notation::rule::{Rule, RuleFault};
use std::str::FromStr;

// In the words of the stored output, which are shorter than the refusal's own.
fn print_refusal(rt: &HostRuntime, text: &str, refusal: Refusal) -> anyhow::Result<()> {
    let Refusal {
        reason,
        part,
        place,
    } = refusal;
    println!(rt; "{text} -> refused {} {part} {place}", reason.number())?;
    Ok(())
}

// Reads the text, writes what was read, and reads that again.
fn round<C: Notation + Drop>(rt: &HostRuntime, field: Field, text: &str) -> anyhow::Result<()> {
    match C::read(field, text) {
        Ok(condition) => {
            let written = format!(in rt.alloc(); "{}", Written(condition))?;
            let again = match C::read(field, written.as_str()) {
                Ok(second) => format!(in rt.alloc(); "{}", Written(second))?,
                Err(_) => String::from_str(rt.alloc(), "refused")?,
            };
            if written.as_str() == again.as_str() {
                println!(rt; "{text} -> {written}")?;
            } else {
                println!(rt; "{text} -> {written} BUT THEN {again}")?;
            }
        }
        Err(refusal) => print_refusal(rt, text, refusal)?,
    }
    Ok(())
}

fn addresses(rt: &HostRuntime) -> anyhow::Result<()> {
    for text in [
        "any",
        "10.1.0.0/16",
        "10.1.2.3",
        "!10.0.0.0/8",
        "0.0.0.0/0",
        "255.255.255.255/32",
        "10.1.2.0/16",
        "10.1.0.0/33",
        "10.1.0/16",
        "10.1.0.256",
        "!any",
        "10.0.0.0/",
        "",
        "1.2.3.4.5",
        "+1.0.0.0",
    ] {
        round::<AddressCondition>(rt, Field::Source, text)?;
    }
    round::<AddressCondition>(rt, Field::Destination, "10.1.2.0/16")
}

fn protocols(rt: &HostRuntime) -> anyhow::Result<()> {
    for text in [
        "any", "tcp", "!udp", "icmp", "6", "255", "47", "0", "256", "!any", "ip",
    ] {
        round::<ProtocolCondition>(rt, Field::Protocol, text)?;
    }
    Ok(())
}

fn ports(rt: &HostRuntime) -> anyhow::Result<()> {
    for text in [
        "any",
        "443",
        "!443",
        "0",
        "65535",
        "65536",
        "99999999999",
        "https",
        "-1",
    ] {
        round::<PortCondition>(rt, Field::DestinationPort, text)?;
    }
    round::<PortCondition>(rt, Field::SourcePort, "70000")
}

fn flags(rt: &HostRuntime) -> anyhow::Result<()> {
    for text in [
        "any",
        "SYN/SYN,ACK",
        "!SYN/SYN,ACK",
        "NONE/FIN,RST",
        "NONE/NONE",
        "FIN,SYN,RST,PSH,ACK,URG/FIN,SYN,RST,PSH,ACK,URG",
        "ACK/SYN",
        "SYN",
        "syn/syn",
        "SYN/",
    ] {
        round::<FlagsCondition>(rt, Field::Flags, text)?;
    }
    Ok(())
}

fn labels(rt: &HostRuntime) -> anyhow::Result<()> {
    for text in [
        "any",
        "new",
        "new,established",
        "established,new",
        "new,established,invalid",
        "!invalid",
        "related",
        "",
        "new,",
    ] {
        round::<LabelCondition>(rt, Field::Label, text)?;
    }
    Ok(())
}

fn names(rt: &HostRuntime) -> anyhow::Result<()> {
    for text in [
        "any",
        "eth0",
        "eth+",
        "!eth+",
        "+",
        "/any",
        "!/any",
        "/!odd",
        "!/!odd",
        "fifteen-bytes-x",
        "sixteen-bytes-xy",
        "fourteen-bytes+",
        "fifteen-bytes-x+",
        "a b",
        "",
        "e+h",
    ] {
        round::<NameCondition>(rt, Field::Interface, text)?;
    }
    Ok(())
}

// In the words of the stored output, which are shorter than the fault's own.
fn print_fault(rt: &HostRuntime, text: &str, fault: RuleFault) -> anyhow::Result<()> {
    match fault {
        RuleFault::Action => println!(rt; "{text} -> no action")?,
        RuleFault::Word => println!(rt; "{text} -> no condition")?,
        RuleFault::Twice(field) => {
            println!(rt; "{text} -> two conditions on field {}", field.number())?
        }
        RuleFault::Condition(_, refusal) => print_refusal(rt, text, refusal)?,
    }
    Ok(())
}

fn rules(rt: &HostRuntime) -> anyhow::Result<()> {
    for text in [
        "accept",
        "drop label=invalid",
        "accept dport=443 dst=10.1.0.0/16",
        "drop src=10.0.0.0/8 dst=!10.1.0.0/16 proto=tcp sport=!53 dport=53 flags=SYN/SYN,ACK label=new,established in=eth+",
        "allow dst=10.1.0.0/16",
        "accept dst",
        "accept to=10.1.0.0/16",
        "accept dst=10.1.0.0/16 dst=10.2.0.0/16",
        "accept dst=10.1.0.1/16",
    ] {
        match text.parse::<Rule>() {
            Ok(rule) => println!(rt; "{text} -> {rule}")?,
            Err(fault) => print_fault(rt, text, fault)?,
        }
    }
    Ok(())
}

fn run(rt: &HostRuntime) -> anyhow::Result<()> {
    addresses(rt)?;
    protocols(rt)?;
    ports(rt)?;
    flags(rt)?;
    labels(rt)?;
    names(rt)?;
    rules(rt)
}

fn main(rt: HostRuntime) -> anyhow::Result<()> {
    run(&rt)
}
