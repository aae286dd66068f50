// The making of conditions, field by field. What is unlawful is refused with 11 and the field's number; all else is made.
// Each field has a call of its own, a line over `made`: the numbers that it takes, and what is lawful among them, are its own.
ghost use Rattle.std.specs.Prelude.{◌≡◌};
ghost use Rattle.fields.specs.Addresses.{MadePrefix};
ghost use Rattle.fields.specs.Making.{answer, stated, MadeFrom, end_field, MadeProtocol, MadeFlags, MadeLabels, MadeWhole, MadeBeginning};

use crate::condition::Test;
use crate::condition::plain::Plain;
use crate::condition::sided::{Sense, Sided};
use crate::field::Field;
use crate::patterns::address::AddressPrefix;
use crate::patterns::flags::FlagsPattern;
use crate::patterns::label::LabelSet;
use crate::patterns::name::{NameBeginning, NamePattern};
use crate::patterns::protocol::ProtocolNumber;
use crate::refusal::{Part, Reason, Refusal};
use crate::values::name::InterfaceName;
use crate::values::port::Port;

pub type AddressCondition = Sided<Plain<AddressPrefix>>;

pub type ProtocolCondition = Sided<Plain<ProtocolNumber>>;

pub type PortCondition = Sided<Plain<Port>>;

pub type FlagsCondition = Sided<Plain<FlagsPattern>>;

pub type LabelCondition = Sided<Plain<LabelSet>>;

pub type NameCondition = Sided<Plain<NamePattern>>;

// The end of a packet's way that an address belongs to.
#[derive(Clone, Copy, PartialEq, Eq, Debug)]
pub enum End {
    Source,
    Destination,
}

// The field that holds this end's address.
impl From<End> for Field {
    ghost from_gives = { λ end field. field ≡ end_field end };

    fn from(end: End) -> Field {
        match end {
            End::Source => Field::Source,
            End::Destination => Field::Destination,
        }
    }
}

// The first `length` bits of an address; all bits behind them are zero.
pub fn address(end: End, bits: u32, length: u32, sense: Sense) -> Result<AddressCondition, Refusal>
    ensures result { MadeFrom (MadePrefix bits length) sense (end_field end) result }
{
    made(AddressPrefix::new(bits, length), sense, Field::from(end))
}

// A protocol from 1 to 255.
pub fn protocol(number: u8, sense: Sense) -> Result<ProtocolCondition, Refusal>
    ensures result { MadeFrom (MadeProtocol number) sense Field.Protocol result }
{
    made(ProtocolNumber::new(number), sense, Field::Protocol)
}

// A port. None is unlawful.
pub fn port(number: u16, sense: Sense) -> PortCondition
    ensures result { result ≡ stated (record { number = number }) sense }
{
    Sided::stated(Port { number }, sense)
}

// The wanted flags among those of the mask.
pub fn flags(mask: u8, wanted: u8, sense: Sense) -> Result<FlagsCondition, Refusal>
    ensures result { MadeFrom (MadeFlags mask wanted) sense Field.Flags result }
{
    made(FlagsPattern::new(mask, wanted), sense, Field::Flags)
}

// A set of labels, as the sum of their values.
pub fn labels(members: u8, sense: Sense) -> Result<LabelCondition, Refusal>
    ensures result { MadeFrom (MadeLabels members) sense Field.Label result }
{
    made(LabelSet::new(members), sense, Field::Label)
}

// A whole interface name of 1 to 15 bytes.
pub fn whole_name(bytes: &[u8], sense: Sense) -> Result<NameCondition, Refusal>
    ensures result { MadeFrom (MadeWhole bytes.now) sense Field.Interface result }
{
    let whole = InterfaceName::new(bytes).ok().map(NamePattern::Whole);
    made(whole, sense, Field::Interface)
}

// The 0 to 14 bytes that an interface name begins with.
pub fn name_beginning(bytes: &[u8], sense: Sense) -> Result<NameCondition, Refusal>
    ensures result { MadeFrom (MadeBeginning bytes.now) sense Field.Interface result }
{
    let beginning = NameBeginning::new(bytes).map(NamePattern::Beginning);
    made(beginning, sense, Field::Interface)
}

// The condition that states a lawful pattern, or the refusal where there is none.
fn made<T: Test>(pattern: Option<T>, sense: Sense, field: Field) -> Result<Sided<Plain<T>>, Refusal>
    ensures result { result ≡ answer pattern sense field }
{
    let lawful = pattern.ok_or(Refusal {
        reason: Reason::Condition,
        part: Part::Columns,
        place: field.number(),
    })?;
    Ok(Sided::stated(lawful, sense))
}
