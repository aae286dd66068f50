// What a step did.
use crate::advance::Outcome;

#[derive(Clone, Copy, PartialEq, Eq, Debug)]
pub enum Answer {
    // the packet fits no entry and opens none
    Nothing,
    Created,
    Renewed,
    Erased,
    // a create with as many live entries as there is room for
    BookFull,
}

impl From<Outcome> for Answer {
    ghost use Rattle.std.specs.Prelude.{◌≡◌};
    ghost use Rattle.book.specs.Passages.{answer_of};

    ghost from_gives = { λ outcome answer. answer ≡ answer_of outcome };

    fn from(outcome: Outcome) -> Answer {
        match outcome {
            Outcome::Renewed => Answer::Renewed,
            Outcome::Erased => Answer::Erased,
        }
    }
}
