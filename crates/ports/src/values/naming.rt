// Which ports a list of conditions names.
ghost use Rattle.std.specs.Prelude.{◌≡◌};
ghost use Rattle.ports.specs.Ports.{names, named};

use fields::condition::plain::Plain;
use fields::values::port::Port;

// Whether this very port is the wanted one.
fn names_port(condition: &Plain<Port>, port: u16) -> bool
    ensures { result ≡ names condition.now port }
{
    matches!(condition, Plain::Is(wanted) if wanted.number == port)
}

// Whether some condition has this very port.
pub(crate) fn some_names(conditions: &[Plain<Port>], port: u16) -> bool
    ensures { result ≡ named conditions.now port }
{
    conditions
        .iter()
        .any(|condition| names_port(condition, port))
}
