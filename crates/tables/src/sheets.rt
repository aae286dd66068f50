// The sheets of the eight columns, in the fixed order of the fields.
use crate::input::Input;
use crate::named::Named;
use crate::samples;
use crate::sheet::{Sheet, make_sheet};
use codes::spread::{FlagsColumn, LabelColumn, ProtocolColumn};
use columns::column::Column;
use columns::inverting::Inverting;
use fields::condition::Condition;
use fields::field::Field;
use notation::rule::Rule;
use notation::value::FieldValue;
use ports::values::ValueColumn;
use prefixes::address::AddressColumn;
use prefixes::name::NameColumn;
use std::alloc::{AllocError, Global};

// The sheet of one field: its column, which is empty yet, its condition in a rule, its value among those that are
// asked for, and the samples of its table.
fn sheet<
    V: Copy,
    K: Condition<Value = V>,
    C: Column<Condition = K>,
    S: Fn(&Rule) -> K,
    A: Fn(FieldValue) -> Option<Option<V>>,
    T: FnOnce(Global, &[K]) -> Result<Vec<Named<Option<V>>>, AllocError>,
>(
    heap: Global,
    input: &Input,
    field: Field,
    column: C,
    stated: S,
    asked: A,
    table: T,
) -> anyhow::Result<Sheet>
    requires stated { S.IsAlwaysCallable stated }
    requires asked { A.IsAlwaysCallable asked }
    requires table { T.IsAlwaysCallable table }
{
    let mut conditions = Vec::new(heap);
    for rule in &input.rules {
        conditions.push(stated(rule))?;
    }
    let mut values = Vec::new(heap);
    for shown in &input.values {
        if let Some(value) = asked(shown.value) {
            let text = shown.text.clone()?;
            values.push(Named { text, value })?;
        }
    }
    let samples = table(heap, &conditions)?;
    make_sheet(heap, field, column, &conditions, samples, values)
}

pub fn all(heap: Global, input: &Input) -> anyhow::Result<Vec<Sheet>> {
    let mut sheets = Vec::new(heap);
    sheets.push(sheet(
        heap,
        input,
        Field::Source,
        Inverting::<AddressColumn>::new(heap)?,
        |rule| rule.source,
        |value| match value {
            FieldValue::Source(value) => Some(value),
            _ => None,
        },
        samples::addresses,
    )?)?;
    sheets.push(sheet(
        heap,
        input,
        Field::Destination,
        Inverting::<AddressColumn>::new(heap)?,
        |rule| rule.destination,
        |value| match value {
            FieldValue::Destination(value) => Some(value),
            _ => None,
        },
        samples::addresses,
    )?)?;
    sheets.push(sheet(
        heap,
        input,
        Field::Protocol,
        ProtocolColumn::new(heap)?,
        |rule| rule.protocol,
        |value| match value {
            FieldValue::Protocol(value) => Some(value),
            _ => None,
        },
        |heap, _| samples::protocols(heap),
    )?)?;
    sheets.push(sheet(
        heap,
        input,
        Field::SourcePort,
        Inverting::<ValueColumn>::new(heap)?,
        |rule| rule.source_port,
        |value| match value {
            FieldValue::SourcePort(value) => Some(value),
            _ => None,
        },
        samples::ports,
    )?)?;
    sheets.push(sheet(
        heap,
        input,
        Field::DestinationPort,
        Inverting::<ValueColumn>::new(heap)?,
        |rule| rule.destination_port,
        |value| match value {
            FieldValue::DestinationPort(value) => Some(value),
            _ => None,
        },
        samples::ports,
    )?)?;
    sheets.push(sheet(
        heap,
        input,
        Field::Flags,
        FlagsColumn::new(heap)?,
        |rule| rule.flags,
        |value| match value {
            FieldValue::Flags(value) => Some(value),
            _ => None,
        },
        |heap, _| samples::flags(heap),
    )?)?;
    sheets.push(sheet(
        heap,
        input,
        Field::Label,
        LabelColumn::new(heap)?,
        |rule| rule.label,
        |value| match value {
            FieldValue::Label(value) => Some(value),
            _ => None,
        },
        |heap, _| samples::labels(heap),
    )?)?;
    sheets.push(sheet(
        heap,
        input,
        Field::Interface,
        Inverting::<NameColumn>::new(heap)?,
        |rule| rule.interface,
        |value| match value {
            FieldValue::Interface(value) => Some(value),
            _ => None,
        },
        samples::names,
    )?)?;
    Ok(sheets)
}
