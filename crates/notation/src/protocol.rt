// Protocol conditions: a number from 1 to 255, or `icmp`, `tcp`, `udp`.
use crate::condition::{PatternText, unlawful};
use crate::number::decimal;
use fields::condition::plain::Plain;
use fields::condition::sided::{Sense, Sided};
use fields::field::Field;
use fields::making;
use fields::patterns::protocol::ProtocolNumber;
use fields::refusal::Refusal;
use std::fmt;

const PROTOCOLS: [(&str, u8); 3] = [("icmp", 1), ("tcp", 6), ("udp", 17)];

// A function, and no FromStr: the type is the library's.
// By a match, as `read_set` says why.
pub(crate) fn number(text: &str) -> Option<u8> {
    match text {
        "icmp" => Some(1),
        "tcp" => Some(6),
        "udp" => Some(17),
        _ => decimal(text),
    }
}

impl PatternText for ProtocolNumber {
    fn read(field: Field, text: &str, sense: Sense) -> Result<Sided<Plain<Self>>, Refusal> {
        let number = number(text).ok_or(unlawful(field))?;
        making::protocol(number, sense)
    }

    fn write<W: fmt::Write>(&self, f: &mut fmt::Formatter<W>) -> fmt::Result {
        let own = self.number();
        match PROTOCOLS.iter().find(|(_, number)| *number == own) {
            Some((name, _)) => write!(f, "{name}"),
            None => write!(f, "{own}"),
        }
    }
}
