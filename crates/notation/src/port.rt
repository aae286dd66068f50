// Port conditions: a number from 0 to 65535.
use crate::condition::{PatternText, unlawful};
use crate::number::decimal;
use fields::condition::plain::Plain;
use fields::condition::sided::{Sense, Sided};
use fields::field::Field;
use fields::making;
use fields::refusal::Refusal;
use fields::values::port::Port;
use std::fmt;

impl PatternText for Port {
    fn read(field: Field, text: &str, sense: Sense) -> Result<Sided<Plain<Self>>, Refusal> {
        let number = decimal(text).ok_or(unlawful(field))?;
        Ok(making::port(number, sense))
    }

    fn write<W: fmt::Write>(&self, f: &mut fmt::Formatter<W>) -> fmt::Result {
        write!(f, "{}", self.number)
    }
}
