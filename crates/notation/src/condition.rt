// What a condition's text is: `any`, or a pattern, which `!` before it inverts.
use fields::condition::Test;
use fields::condition::plain::Plain;
use fields::condition::sided::{Sense, Sided};
use fields::field::Field;
use fields::refusal::{Part, Reason, Refusal};
use std::fmt;

pub trait Notation: Sized {
    // The condition that the text states. A text that states none, or an unlawful one, is refused as its making is.
    fn read(field: Field, text: &str) -> Result<Self, Refusal>;

    fn write<W: fmt::Write>(&self, f: &mut fmt::Formatter<W>) -> fmt::Result;
}

// What a pattern's text is.
pub trait PatternText: Test {
    // The condition that the pattern in the text makes. The field is told for the refusal: two fields share a pattern's type.
    fn read(field: Field, text: &str, sense: Sense) -> Result<Sided<Plain<Self>>, Refusal>;

    fn write<W: fmt::Write>(&self, f: &mut fmt::Formatter<W>) -> fmt::Result;
}

impl<T: PatternText> Notation for Sided<Plain<T>> {
    fn read(field: Field, text: &str) -> Result<Self, Refusal> {
        if text == "any" {
            return Ok(any());
        }
        match text.strip_prefix('!') {
            Some(pattern) => T::read(field, pattern, Sense::Inverted),
            None => T::read(field, text, Sense::Plain),
        }
    }

    fn write<W: fmt::Write>(&self, f: &mut fmt::Formatter<W>) -> fmt::Result {
        if self.is_inverted() {
            write!(f, "!")?;
        }
        match self.condition() {
            Plain::Any => write!(f, "any"),
            Plain::Is(pattern) => pattern.write(f),
        }
    }
}

// A condition, a field or a label, shown in its notation.
#[derive(Clone, Copy)]
pub struct Written<T>(pub T);

impl<T: Notation> fmt::Display for Written<T> {
    fn fmt<W: fmt::Write>(&self, f: &mut fmt::Formatter<W>) -> fmt::Result {
        self.0.write(f)
    }
}

pub(crate) fn any<T: Test>() -> Sided<Plain<T>> {
    Sided::plain(Plain::Any)
}

pub(crate) fn unlawful(field: Field) -> Refusal {
    Refusal {
        reason: Reason::Condition,
        part: Part::Columns,
        place: field.number(),
    }
}
