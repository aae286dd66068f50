// A rule on a line: `accept` or `drop`, and a word for each condition other than any, as `dst=10.1.0.0/16`.
use crate::condition::{Notation, Written, any};
use crate::field::{FIELDS, field_and_text};
use fields::condition::Condition;
use fields::field::{Action, Field};
use fields::making::{
    AddressCondition, FlagsCondition, LabelCondition, NameCondition, PortCondition,
    ProtocolCondition,
};
use fields::refusal::Refusal;
use std::error::Error;
use std::str::FromStr;
use std::{fmt, mem};

#[derive(Clone, Copy)]
pub struct Rule {
    pub action: Action,
    pub source: AddressCondition,
    pub destination: AddressCondition,
    pub protocol: ProtocolCondition,
    pub source_port: PortCondition,
    pub destination_port: PortCondition,
    pub flags: FlagsCondition,
    pub label: LabelCondition,
    pub interface: NameCondition,
}

// What is wrong with a rule's line.
#[derive(Clone, Copy, PartialEq, Eq, Debug)]
pub enum RuleFault {
    // the first word is no action
    Action,
    // a word is not FIELD=CONDITION
    Word,
    // the field has a condition already
    Twice(Field),
    // the condition on this field is unlawful
    Condition(Field, Refusal),
}

impl fmt::Display for RuleFault {
    fn fmt<W: fmt::Write>(&self, f: &mut fmt::Formatter<W>) -> fmt::Result {
        match self {
            RuleFault::Action => write!(f, "a rule begins with accept or drop"),
            RuleFault::Word => {
                write!(
                    f,
                    "a condition is written FIELD=CONDITION, with FIELD one of"
                )?;
                write_fields(f)
            }
            RuleFault::Twice(field) => write!(f, "{} has two conditions", Written(*field)),
            RuleFault::Condition(field, refusal) => {
                let name = Written(*field);
                write!(f, "{name} has an unlawful condition ({refusal})")
            }
        }
    }
}

fn write_fields<W: fmt::Write>(f: &mut fmt::Formatter<W>) -> fmt::Result {
    let mut before = " ";
    for field in FIELDS {
        write!(f, "{before}{}", Written(field))?;
        before = ", ";
    }
    Ok(())
}

impl Error for RuleFault {}

fn unconditional(action: Action) -> Rule {
    Rule {
        action,
        source: any(),
        destination: any(),
        protocol: any(),
        source_port: any(),
        destination_port: any(),
        flags: any(),
        label: any(),
        interface: any(),
    }
}

// Lets the rule have the condition that the text states. Each field's condition has a type of its own, so no table can stand for the match.
fn state(rule: &mut Rule, field: Field, text: &str) -> Result<(), Refusal> {
    match field {
        Field::Source => rule.source = Notation::read(field, text)?,
        Field::Destination => rule.destination = Notation::read(field, text)?,
        Field::Protocol => rule.protocol = Notation::read(field, text)?,
        Field::SourcePort => rule.source_port = Notation::read(field, text)?,
        Field::DestinationPort => rule.destination_port = Notation::read(field, text)?,
        Field::Flags => rule.flags = Notation::read(field, text)?,
        Field::Label => rule.label = Notation::read(field, text)?,
        Field::Interface => rule.interface = Notation::read(field, text)?,
    }
    Ok(())
}

impl FromStr for Rule {
    type Err = RuleFault;

    fn from_str(line: &str) -> Result<Rule, RuleFault> {
        let (word, conditions) = line.split_once(' ').unwrap_or((line, ""));
        let mut rule = unconditional(action(word)?);
        let mut stated = [false; FIELDS.len() + 1];
        for word in conditions.split_whitespace() {
            let (field, text) = field_and_text(word).ok_or(RuleFault::Word)?;
            if mem::replace(&mut stated[field.number()], true) {
                return Err(RuleFault::Twice(field));
            }
            state(&mut rule, field, text).map_err(|refusal| RuleFault::Condition(field, refusal))?;
        }
        Ok(rule)
    }
}

fn action_name(action: Action) -> &'static str {
    match action {
        Action::Accept => "accept",
        Action::Drop => "drop",
    }
}

// A function, and no FromStr: the type is of the crate `fields`.
fn action(word: &str) -> Result<Action, RuleFault> {
    [Action::Accept, Action::Drop]
        .into_iter()
        .find(|action| action_name(*action) == word)
        .ok_or(RuleFault::Action)
}

// A condition other than any, behind its field's name.
fn write_word<C: Condition + Notation, W: fmt::Write>(
    field: Field,
    condition: C,
    f: &mut fmt::Formatter<W>,
) -> fmt::Result {
    if condition.is_any() {
        return Ok(());
    }
    write!(f, " {}={}", Written(field), Written(condition))
}

impl fmt::Display for Rule {
    fn fmt<W: fmt::Write>(&self, f: &mut fmt::Formatter<W>) -> fmt::Result {
        write!(f, "{}", action_name(self.action))?;
        write_word(Field::Source, self.source, f)?;
        write_word(Field::Destination, self.destination, f)?;
        write_word(Field::Protocol, self.protocol, f)?;
        write_word(Field::SourcePort, self.source_port, f)?;
        write_word(Field::DestinationPort, self.destination_port, f)?;
        write_word(Field::Flags, self.flags, f)?;
        write_word(Field::Label, self.label, f)?;
        write_word(Field::Interface, self.interface, f)
    }
}
