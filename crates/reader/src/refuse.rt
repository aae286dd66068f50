// How the reader turns a packet away.
ghost use Rattle.std.specs.Prelude.{◌≡◌};
ghost use Rattle.reader.specs.Checks.{refused_if};

use fields::refusal::{Part, Reason, Refusal};

// Refused for this reason, found at this place, if the fault is there.
pub(crate) fn refuse_if(fault: bool, reason: Reason, place: usize) -> Result<(), Refusal>
    ensures result { result ≡ refused_if fault reason place }
{
    if fault {
        return Err(Refusal {
            reason,
            part: Part::Reader,
            place,
        });
    }
    Ok(())
}
