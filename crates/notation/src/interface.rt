// Interface names: `eth0` for a whole name, `eth+` for a beginning.
// A name may begin with `!` or be `any`, so one may be written behind a `/`, which no name has: `/any`.
use crate::condition::PatternText;
use fields::condition::plain::Plain;
use fields::condition::sided::{Sense, Sided};
use fields::field::Field;
use fields::making;
use fields::patterns::name::NamePattern;
use fields::refusal::Refusal;
use std::fmt;

// The name behind the `/`, if there is one.
pub(crate) fn bare(text: &str) -> &str {
    text.strip_prefix('/').unwrap_or(text)
}

fn write_name<W: fmt::Write>(name: &[u8], f: &mut fmt::Formatter<W>) -> fmt::Result {
    if matches!(name, b"any" | b"absent" | [b'!', ..]) {
        write!(f, "/")?;
    }
    for byte in name {
        write!(f, "{}", char::from(*byte))?;
    }
    Ok(())
}

impl PatternText for NamePattern {
    fn read(_field: Field, text: &str, sense: Sense) -> Result<Sided<Plain<Self>>, Refusal> {
        let name = bare(text);
        match name.strip_suffix('+') {
            Some(beginning) => making::name_beginning(beginning.as_bytes(), sense),
            None => making::whole_name(name.as_bytes(), sense),
        }
    }

    fn write<W: fmt::Write>(&self, f: &mut fmt::Formatter<W>) -> fmt::Result {
        match self {
            NamePattern::Whole(name) => write_name(name.as_slice(), f),
            NamePattern::Beginning(beginning) => {
                write_name(beginning.as_slice(), f)?;
                write!(f, "+")
            }
        }
    }
}
