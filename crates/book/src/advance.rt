// What an entry says of a packet that fits it, and what the packet does to it.
ghost use Rattle.std.specs.Prelude.{◌≡◌, if◌then◌else◌};
ghost use Rattle.book.specs.Steps.{has_flag, label_of, advanced, erases};

use crate::entry::{Entry, Side, State};
use crate::lifetime::lifetime;
use fields::values::flags::{FIN, RST};
use fields::values::label::Label;

// What becomes of an entry that a packet fits.
#[derive(Clone, Copy)]
pub enum Outcome {
    Renewed,
    // the entry asks to be erased
    Erased,
}

// Whether the packet has TCP flags, and `flag` is set in them.
fn has_flag(flags: Option<u8>, flag: u8) -> bool
    ensures result { result ≡ has_flag flags flag }
{
    flags.is_some_and(|bits| bits & flag != 0)
}

impl Entry {
    // The label of a packet that fits the entry from the side.
    pub(crate) fn label(&self, side: Side) -> Label
        ensures result { result ≡ label_of self.now.state side }
    {
        match (self.state, side) {
            (State::Opened, Side::Opener) => Label::New,
            _ => Label::Established,
        }
    }

    // Takes the step of a packet that fits the entry from the side, or asks for the entry to be erased.
    pub(crate) fn advance(&mut self, side: Side, flags: Option<u8>, clock: u32) -> Outcome
        ensures result { result ≡ (if erases flags then Outcome.Erased else Outcome.Renewed) }
        ensures later { self.new ≡ (if erases flags then self.old else advanced self.old side flags clock) }
    {
        let state = match (self.state, side) {
            _ if has_flag(flags, RST) => return Outcome::Erased,
            (State::Opened, Side::Opener) => State::Opened,
            _ if has_flag(flags, FIN) => State::Closing,
            (State::Opened, Side::Other) => State::Answered,
            (state, _) => state,
        };
        self.state = state;
        self.deadline = u64::from(clock) + lifetime(self.flow.protocol, state);
        Outcome::Renewed
    }
}
