// The names of the fields.
use crate::condition::Written;
use fields::field::Field;
use std::fmt;

pub(crate) const FIELDS: [Field; 8] = [
    Field::Source,
    Field::Destination,
    Field::Protocol,
    Field::SourcePort,
    Field::DestinationPort,
    Field::Flags,
    Field::Label,
    Field::Interface,
];

fn name(field: Field) -> &'static str {
    match field {
        Field::Source => "src",
        Field::Destination => "dst",
        Field::Protocol => "proto",
        Field::SourcePort => "sport",
        Field::DestinationPort => "dport",
        Field::Flags => "flags",
        Field::Label => "label",
        Field::Interface => "in",
    }
}

impl fmt::Display for Written<Field> {
    fn fmt<W: fmt::Write>(&self, f: &mut fmt::Formatter<W>) -> fmt::Result {
        write!(f, "{}", name(self.0))
    }
}

// The field that a word's beginning names, and the text behind its `=`. By a match, as `read_set` says why.
pub(crate) fn field_and_text(word: &str) -> Option<(Field, &str)> {
    let (name, text) = word.split_once('=')?;
    let field = match name {
        "src" => Field::Source,
        "dst" => Field::Destination,
        "proto" => Field::Protocol,
        "sport" => Field::SourcePort,
        "dport" => Field::DestinationPort,
        "flags" => Field::Flags,
        "label" => Field::Label,
        "in" => Field::Interface,
        _ => return None,
    };
    Some((field, text))
}
