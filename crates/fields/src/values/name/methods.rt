// The making of names.
ghost use Rattle.std.specs.Prelude.{◌≡◌, ◌≤◌, Some, None, MatchResult};
ghost use Rattle.fields.specs.NameBytes.{name_byte, text_fault};
ghost use Rattle.fields.specs.Names.{text_bytes, name_bytes, MadeName};

use super::{InterfaceName, NameText};
use crate::refusal::{Part, Reason, Refusal};

pub(crate) fn is_name_byte(byte: u8) -> bool
    ensures result { result ≡ name_byte byte }
{
    byte.is_ascii_graphic() && byte != b'+' && byte != b'/'
}

impl NameText {
    // The text of these bytes, if there are `low` to `high` and each is a name byte; else 0 for the length, or the index of the first bad byte.
    pub(crate) fn read(low: usize, high: usize, bytes: &[u8]) -> Result<NameText, usize>
        requires { high ≤ 15 }
        ensures result { MatchResult result (λ t. (text_fault low high bytes.now ≡ None) × (text_bytes t ≡ bytes.now)) (λ place. text_fault low high bytes.now ≡ Some place) }
    {
        if bytes.len() < low || bytes.len() > high {
            return Err(0);
        }
        if let Some(place) = bytes.iter().position(|byte| !is_name_byte(*byte)) {
            return Err(place);
        }
        let mut text = [0; 15];
        text[..bytes.len()].copy_from_slice(bytes);
        Ok(NameText {
            bytes: text,
            length: bytes.len(),
        })
    }

    pub(crate) fn as_slice(&self) -> &[u8]
        ensures result { result.now ≡ text_bytes self.now }
    {
        &self.bytes[0..self.length]
    }
}

impl InterfaceName {
    // The name of these bytes; else refusal 1, with place 0 for a wrong length or the index of the first bad byte.
    pub fn new(bytes: &[u8]) -> Result<InterfaceName, Refusal>
        ensures result { MadeName bytes.now result }
    {
        let text = NameText::read(1, 15, bytes).map_err(|place| Refusal {
            reason: Reason::InterfaceName,
            part: Part::Reader,
            place,
        })?;
        Ok(InterfaceName { text })
    }

    pub fn as_slice(&self) -> &[u8]
        ensures result { result.now ≡ name_bytes self.now }
    {
        self.text.as_slice()
    }
}
