// Address conditions: `10.1.0.0/16`, or `10.1.2.3` for one address.
use crate::condition::{PatternText, unlawful};
use crate::number::decimal;
use fields::condition::plain::Plain;
use fields::condition::sided::{Sense, Sided};
use fields::field::Field;
use fields::making;
use fields::making::End;
use fields::patterns::address::AddressPrefix;
use fields::refusal::Refusal;
use fields::values::address::Address;
use std::fmt;
use std::net::Ipv4Addr;

// Four numbers from 0 to 255. Ipv4Addr's own reading refuses leading zeros, which this notation takes.
pub(crate) fn dotted(text: &str) -> Option<Address> {
    let mut parts = text.split('.');
    let mut bytes = [0; 4];
    for byte in bytes.iter_mut() {
        *byte = decimal(parts.next()?)?;
    }
    match parts.next() {
        Some(_) => None,
        None => Some(Address {
            bits: u32::from_be_bytes(bytes),
        }),
    }
}

// Only the two fields of addresses come here. No From: the other fields have no end.
fn end_of(field: Field) -> End {
    match field {
        Field::Source => End::Source,
        _ => End::Destination,
    }
}

// The address and the length of a prefix.
fn prefix(text: &str) -> Option<(Address, u32)> {
    match text.split_once('/') {
        Some((address, length)) => Some((dotted(address)?, decimal(length)?)),
        None => Some((dotted(text)?, 32)),
    }
}

impl PatternText for AddressPrefix {
    fn read(field: Field, text: &str, sense: Sense) -> Result<Sided<Plain<Self>>, Refusal> {
        let (address, length) = prefix(text).ok_or(unlawful(field))?;
        making::address(end_of(field), address.bits, length, sense)
    }

    fn write<W: fmt::Write>(&self, f: &mut fmt::Formatter<W>) -> fmt::Result {
        let address = Ipv4Addr::from_bits(self.bits());
        write!(f, "{address}/{}", self.length())
    }
}
