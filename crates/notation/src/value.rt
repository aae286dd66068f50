// A field and a value of it, as `dport=443`; `absent` where a packet has none.
use crate::address::dotted;
use crate::field::field_and_text;
use crate::flags::set;
use crate::interface::bare;
use crate::labels::label;
use crate::number::decimal;
use crate::protocol;
use fields::field::Field;
use fields::values::address::Address;
use fields::values::flags::Flags;
use fields::values::label::Label;
use fields::values::name::InterfaceName;
use fields::values::port::Port;
use fields::values::protocol::Protocol;
use std::error::Error;
use std::fmt;
use std::str::FromStr;

#[derive(Clone, Copy)]
pub enum FieldValue {
    Source(Option<Address>),
    Destination(Option<Address>),
    Protocol(Option<Protocol>),
    SourcePort(Option<Port>),
    DestinationPort(Option<Port>),
    Flags(Option<Flags>),
    Label(Option<Label>),
    Interface(Option<InterfaceName>),
}

// A text that names no field, or no value that its field can have.
#[derive(Clone, Copy, PartialEq, Eq, Debug)]
pub struct NoValue;

impl fmt::Display for NoValue {
    fn fmt<W: fmt::Write>(&self, f: &mut fmt::Formatter<W>) -> fmt::Result {
        write!(f, "no value of a field")
    }
}

impl Error for NoValue {}

fn protocol_of(text: &str) -> Option<Protocol> {
    let number = protocol::number(text)?;
    Some(Protocol { number })
}

fn port_of(text: &str) -> Option<Port> {
    let number = decimal(text)?;
    Some(Port { number })
}

fn flags_of(text: &str) -> Option<Flags> {
    Some(Flags::of(set(text)?))
}

fn interface_of(text: &str) -> Option<InterfaceName> {
    InterfaceName::new(bare(text).as_bytes()).ok()
}

// None for `absent`, and else the value that is read from the text.
fn or_absent<V, F: FnOnce(&str) -> Option<V>>(text: &str, read: F) -> Result<Option<V>, NoValue>
    requires { F.IsAlwaysCallable read }
{
    if text == "absent" {
        return Ok(None);
    }
    Ok(Some(read(text).ok_or(NoValue)?))
}

impl FromStr for FieldValue {
    type Err = NoValue;

    fn from_str(word: &str) -> Result<FieldValue, NoValue> {
        let (field, text) = field_and_text(word).ok_or(NoValue)?;
        // Each field's value has a type of its own, so no table can stand for the match.
        let value = match field {
            Field::Source => FieldValue::Source(or_absent(text, dotted)?),
            Field::Destination => FieldValue::Destination(or_absent(text, dotted)?),
            Field::Protocol => FieldValue::Protocol(or_absent(text, protocol_of)?),
            Field::SourcePort => FieldValue::SourcePort(or_absent(text, port_of)?),
            Field::DestinationPort => FieldValue::DestinationPort(or_absent(text, port_of)?),
            Field::Flags => FieldValue::Flags(or_absent(text, flags_of)?),
            Field::Label => FieldValue::Label(or_absent(text, label)?),
            Field::Interface => FieldValue::Interface(or_absent(text, interface_of)?),
        };
        Ok(value)
    }
}
