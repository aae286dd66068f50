// How long an entry lives after a step.
ghost use Rattle.std.specs.Prelude.{◌≡◌};
ghost use Rattle.book.specs.Steps.{lifetime_of};

use crate::entry::State;
use crate::flow::Protocol;

// In seconds.
pub(crate) fn lifetime(protocol: Protocol, state: State) -> u64
    ensures result { result ≡ lifetime_of protocol state }
{
    match (protocol, state) {
        (Protocol::Echo, _) => 30,
        (Protocol::Udp, State::Opened) => 30,
        (Protocol::Udp, _) => 180,
        (Protocol::Tcp, State::Answered) => 432_000,
        (Protocol::Tcp, _) => 120,
    }
}
