// Label conditions: labels between commas, as `new,established`.
use crate::condition::{PatternText, Written, unlawful};
use crate::names::{read_set, write_set};
use fields::condition::plain::Plain;
use fields::condition::sided::{Sense, Sided};
use fields::field::Field;
use fields::making;
use fields::patterns::label::LabelSet;
use fields::refusal::Refusal;
use fields::values::label::Label;
use std::fmt;

const LABELS: [Label; 3] = [Label::New, Label::Established, Label::Invalid];

fn name(label: Label) -> &'static str {
    match label {
        Label::New => "new",
        Label::Established => "established",
        Label::Invalid => "invalid",
    }
}

impl fmt::Display for Written<Label> {
    fn fmt<W: fmt::Write>(&self, f: &mut fmt::Formatter<W>) -> fmt::Result {
        write!(f, "{}", name(self.0))
    }
}

// A function, and no FromStr: the type is of the crate `fields`, and `Written` is for showing.
pub(crate) fn label(text: &str) -> Option<Label> {
    match text {
        "new" => Some(Label::New),
        "established" => Some(Label::Established),
        "invalid" => Some(Label::Invalid),
        _ => None,
    }
}

// The names with the labels' weights in a set.
fn weights() -> [(&'static str, u8); 3] {
    LABELS.map(|label| (name(label), label.value()))
}

impl PatternText for LabelSet {
    fn read(field: Field, text: &str, sense: Sense) -> Result<Sided<Plain<Self>>, Refusal> {
        let members = read_set(text, |name| Some(label(name)?.value())).ok_or(unlawful(field))?;
        making::labels(members, sense)
    }

    fn write<W: fmt::Write>(&self, f: &mut fmt::Formatter<W>) -> fmt::Result {
        write_set(&weights(), self.members(), f)
    }
}
