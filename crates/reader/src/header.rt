// The Internet header (RFC 791, section 3.1): each field is read from where it stands.
ghost use Rattle.std.specs.Prelude.{◌≡◌, ◌≤◌, length, false, true, MatchResult};
ghost use Rattle.fields.specs.declared.refusal.Reason.TheVariants as reason;
ghost use Rattle.reader.specs.Layouts.{ip_version, ip_total_length, ip_fragment_offset, ip_protocol, ip_source, ip_destination};
ghost use Rattle.reader.specs.Checks.{refusal, truncated, header_length};

use crate::numbers::{long, octet, word};
use crate::refuse::refuse_if;
use fields::refusal::{Reason, Refusal};
use fields::values::address::Address;

// Bytes that begin with a header: at least those of the shortest one.
#[derive(Clone, Copy)]
pub(crate) struct Header<'a> {
    pub(crate) bytes: &'a [u8],
    ghost least: { 20 ≤ length bytes.now },
}

impl<'a> Header<'a> {
    pub(crate) fn new(bytes: &'a [u8]) -> Result<Self, Refusal>
        ensures result { MatchResult result (λ h. (truncated bytes.now ≡ false) × (h.bytes.now ≡ bytes.now)) (λ e. (truncated bytes.now ≡ true) × (e ≡ refusal reason.Truncated (length bytes.now))) }
    {
        refuse_if(bytes.len() < 20, Reason::Truncated, bytes.len())?;
        Ok(Header { bytes })
    }

    pub(crate) fn version(&self) -> u8
        ensures result { result ≡ ip_version self.now.bytes.now }
    {
        octet(self.bytes, 0) / 16
    }

    // In bytes; the header states it in rows of four.
    pub(crate) fn length(&self) -> usize
        ensures result { result ≡ header_length self.now.bytes.now }
        ensures most { result ≤ 60 }
    {
        usize::from(octet(self.bytes, 0) % 16) * 4
    }

    // The length of header and payload, in bytes.
    pub(crate) fn total_length(&self) -> usize
        ensures result { result ≡ ip_total_length self.now.bytes.now }
    {
        usize::from(word(self.bytes, 2))
    }

    // The low 13 bits; the three above them are the fragment flags.
    pub(crate) fn fragment_offset(&self) -> u16
        ensures result { result ≡ ip_fragment_offset self.now.bytes.now }
    {
        word(self.bytes, 6) % 0x2000
    }

    pub(crate) fn protocol(&self) -> u8
        ensures result { result ≡ ip_protocol self.now.bytes.now }
    {
        octet(self.bytes, 9)
    }

    // Source and destination are two boxes of the drawing; what they share is `long`.
    pub(crate) fn source(&self) -> Address
        ensures result { result.bits ≡ ip_source self.now.bytes.now }
    {
        Address {
            bits: long(self.bytes, 12),
        }
    }

    pub(crate) fn destination(&self) -> Address
        ensures result { result.bits ≡ ip_destination self.now.bytes.now }
    {
        Address {
            bits: long(self.bytes, 16),
        }
    }
}
