// One connection.
ghost use Rattle.std.specs.Prelude.{◌≡◌, ◌≢◌, MatchBool};
ghost use Rattle.book.specs.Live.{live};

use crate::flow::Flow;

#[derive(Clone, Copy)]
pub enum State {
    Opened,
    Answered,
    Closing,
}

// The end that sent a packet.
#[derive(Clone, Copy)]
pub enum Side {
    Opener,
    Other,
}

#[derive(Clone, Copy)]
pub struct Entry {
    pub flow: Flow,
    pub state: State,
    // A clock of 32 bits plus a lifetime can pass 32 bits.
    pub deadline: u64,
}

impl Entry {
    pub(crate) fn is_of(&self, flow: Flow) -> bool
        ensures result { MatchBool result (self.now.flow ≡ flow) (self.now.flow ≢ flow) }
    {
        self.flow == flow
    }

    // An entry is live exactly while the clock is below its deadline.
    pub(crate) fn is_live(&self, clock: u32) -> bool
        ensures result { result ≡ live clock self.now }
    {
        u64::from(clock) < self.deadline
    }
}
