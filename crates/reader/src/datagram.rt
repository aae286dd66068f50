// A packet taken apart: its header, and its payload up to the total length.
ghost use Rattle.std.specs.Prelude.{◌≡◌, ◌≤◌, length, Some, MatchResult};

use crate::header::Header;
use crate::refuse::refuse_if;
use fields::refusal::{Reason, Refusal};

#[derive(Clone, Copy)]
pub(crate) struct Datagram<'a> {
    pub(crate) header: Header<'a>,
    pub(crate) payload: &'a [u8],
    ghost most: { length header.bytes.now ≤ 60 },
}

impl<'a> Datagram<'a> {
    ghost use Rattle.reader.specs.Checks.{packet_fault};
    ghost use Rattle.reader.specs.Stages.{Cut};

    // Cuts a packet at the lengths that it states, where they fit what there is of it; what lies behind its total length is left out.
    #[tactic(auto, unfolding(crate::specs::Checks::packet_fault))]
    pub(crate) fn cut(bytes: &'a [u8]) -> Result<Self, Refusal>
        ensures result { MatchResult result (Cut bytes.now) (λ e. packet_fault bytes.now ≡ Some e) }
    {
        let header = Header::new(bytes)?;
        refuse_if(header.version() != 4, Reason::Version, 0)?;
        refuse_if(header.has_bad_length(), Reason::HeaderLength, 0)?;
        refuse_if(header.has_bad_total_length(), Reason::TotalLength, 2)?;
        let start = header.length();
        let end = header.total_length();
        Ok(Datagram {
            header: Header {
                bytes: &bytes[..start],
            },
            payload: &bytes[start..end],
        })
    }
}
