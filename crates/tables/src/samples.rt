// The values at which a column's table is shown.
use crate::named::Named;
use fields::condition::Test;
use fields::condition::plain::Plain;
use fields::condition::sided::Sided;
use fields::making::{AddressCondition, NameCondition, PortCondition};
use fields::patterns::address::AddressPrefix;
use fields::patterns::name::NamePattern;
use fields::values::address::Address;
use fields::values::flags::Flags;
use fields::values::label::Label;
use fields::values::name::InterfaceName;
use fields::values::port::Port;
use fields::values::protocol::Protocol;
use notation::condition::Written;
use std::alloc::{AllocError, Global};
use std::fmt::Display;
use std::net::Ipv4Addr;

fn sample<V: Copy>(
    heap: Global,
    text: impl Display + Drop,
    value: Option<V>,
) -> Result<Named<Option<V>>, AllocError> {
    let text = format!(in heap; "{text}")?;
    Ok(Named { text, value })
}

// The numbers at which the stretches begin that all conditions treat alike: 0, and of each pattern the first number
// and the one behind its last, which may be none of the field's.
fn starts<P: Test, F: Fn(P) -> [u64; 2]>(
    heap: Global,
    conditions: &[Sided<Plain<P>>],
    stretch: F,
) -> Result<Vec<u64>, AllocError>
    requires { F.IsAlwaysCallable stretch }
{
    let mut starts = Vec::new(heap);
    starts.push(0)?;
    for condition in conditions {
        if let Plain::Is(pattern) = condition.condition() {
            starts.extend_from_slice(&stretch(pattern))?;
        }
    }
    starts.sort()?;
    starts.dedup();
    Ok(starts)
}

// Of the addresses with a prefix the first, and the one behind the last.
fn addresses_of(prefix: AddressPrefix) -> [u64; 2] {
    let first = u64::from(prefix.bits());
    let count = 1u64 << 32u32.saturating_sub(prefix.length());
    [first, first.saturating_add(count)]
}

pub fn addresses(
    heap: Global,
    conditions: &[AddressCondition],
) -> Result<Vec<Named<Option<Address>>>, AllocError> {
    let mut samples = Vec::new(heap);
    for start in starts(heap, conditions, addresses_of)? {
        if let Ok(bits) = u32::try_from(start) {
            let text = format_args!("{}-", Ipv4Addr::from_bits(bits));
            samples.push(sample(heap, text, Some(Address { bits }))?)?;
        }
    }
    Ok(samples)
}

fn ports_of(port: Port) -> [u64; 2] {
    let number = u64::from(port.number);
    [number, number + 1]
}

pub fn ports(
    heap: Global,
    conditions: &[PortCondition],
) -> Result<Vec<Named<Option<Port>>>, AllocError> {
    let mut samples = Vec::new(heap);
    for start in starts(heap, conditions, ports_of)? {
        if let Ok(number) = u16::try_from(start) {
            let text = format_args!("{number}-");
            samples.push(sample(heap, text, Some(Port { number }))?)?;
        }
    }
    samples.push(sample(heap, "absent", None)?)?;
    Ok(samples)
}

pub fn protocols(heap: Global) -> Result<Vec<Named<Option<Protocol>>>, AllocError> {
    let mut samples = Vec::new(heap);
    for number in 0..=255u8 {
        samples.push(sample(heap, number, Some(Protocol { number }))?)?;
    }
    Ok(samples)
}

pub fn flags(heap: Global) -> Result<Vec<Named<Option<Flags>>>, AllocError> {
    let mut samples = Vec::new(heap);
    for bits in 0..64u8 {
        samples.push(sample(heap, bits, Some(Flags::of(bits)))?)?;
    }
    samples.push(sample(heap, "absent", None)?)?;
    Ok(samples)
}

pub fn labels(heap: Global) -> Result<Vec<Named<Option<Label>>>, AllocError> {
    let mut samples = Vec::new(heap);
    for label in [Label::New, Label::Established, Label::Invalid] {
        samples.push(sample(heap, Written(label), Some(label))?)?;
    }
    Ok(samples)
}

// The names that the conditions' own bytes spell. A beginning may be too short for a name.
pub fn names(
    heap: Global,
    conditions: &[NameCondition],
) -> Result<Vec<Named<Option<InterfaceName>>>, AllocError> {
    let mut samples = Vec::new(heap);
    for condition in conditions {
        if let Plain::Is(pattern) = condition.condition() {
            let bytes = match &pattern {
                NamePattern::Whole(name) => name.as_slice(),
                NamePattern::Beginning(beginning) => beginning.as_slice(),
            };
            if let Ok(name) = InterfaceName::new(bytes) {
                let text: String = bytes.iter().map(|byte| char::from(*byte)).collect(heap)?;
                samples.push(sample(heap, text, Some(name))?)?;
            }
        }
    }
    Ok(samples)
}
