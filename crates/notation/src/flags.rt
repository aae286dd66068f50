// Flag conditions: the wanted flags, `/`, and the flags that are looked at, as `SYN/SYN,ACK`; `NONE` for no flag.
use crate::condition::{PatternText, unlawful};
use crate::names::{read_set, write_set};
use fields::condition::plain::Plain;
use fields::condition::sided::{Sense, Sided};
use fields::field::Field;
use fields::making;
use fields::patterns::flags::FlagsPattern;
use fields::refusal::Refusal;
use fields::values::flags::{ACK, FIN, PSH, RST, SYN, URG};
use std::fmt;

const FLAGS: [(&str, u8); 6] = [
    ("FIN", FIN),
    ("SYN", SYN),
    ("RST", RST),
    ("PSH", PSH),
    ("ACK", ACK),
    ("URG", URG),
];

// The flag of this name.
fn flag(name: &str) -> Option<u8> {
    match name {
        "FIN" => Some(FIN),
        "SYN" => Some(SYN),
        "RST" => Some(RST),
        "PSH" => Some(PSH),
        "ACK" => Some(ACK),
        "URG" => Some(URG),
        _ => None,
    }
}

// The flags that the text names, between commas.
pub(crate) fn set(text: &str) -> Option<u8> {
    if text == "NONE" {
        return Some(0);
    }
    read_set(text, flag)
}

fn write_flags<W: fmt::Write>(flags: u8, f: &mut fmt::Formatter<W>) -> fmt::Result {
    if flags == 0 {
        return write!(f, "NONE");
    }
    write_set(&FLAGS, flags, f)
}

// The mask and the wanted flags.
fn mask_and_wanted(text: &str) -> Option<(u8, u8)> {
    let (wanted, mask) = text.split_once('/')?;
    Some((set(mask)?, set(wanted)?))
}

impl PatternText for FlagsPattern {
    fn read(field: Field, text: &str, sense: Sense) -> Result<Sided<Plain<Self>>, Refusal> {
        let (mask, wanted) = mask_and_wanted(text).ok_or(unlawful(field))?;
        making::flags(mask, wanted, sense)
    }

    fn write<W: fmt::Write>(&self, f: &mut fmt::Formatter<W>) -> fmt::Result {
        write_flags(self.wanted(), f)?;
        write!(f, "/")?;
        write_flags(self.mask(), f)
    }
}
