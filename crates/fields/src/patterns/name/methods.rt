// The making of name patterns, and which names pass them.
ghost use Rattle.std.specs.Prelude.{◌≡◌, None, MatchOption, ◌≢◌};
ghost use Rattle.fields.specs.NameBytes.{text_fault};
ghost use Rattle.fields.specs.NamePatterns.{beginning_bytes, name_passes};

use super::{NameBeginning, NamePattern};
use crate::condition::Test;
use crate::values::name::{InterfaceName, NameText};

impl NameBeginning {
    // None where there are more than 14 bytes, or one is no name byte.
    pub(crate) fn new(bytes: &[u8]) -> Option<NameBeginning>
        ensures result { MatchOption result (text_fault 0 14 bytes.now ≢ None) (λ b. beginning_bytes b ≡ bytes.now) }
    {
        let text = NameText::read(0, 14, bytes).ok()?;
        Some(NameBeginning { text })
    }

    pub fn as_slice(&self) -> &[u8]
        ensures result { result.now ≡ beginning_bytes self.now }
    {
        self.text.as_slice()
    }
}

impl Test for NamePattern {
    type Value = InterfaceName;

    ghost passes = { name_passes };

    fn passes_on(&self, value: InterfaceName) -> bool {
        match self {
            NamePattern::Whole(name) => name.as_slice() == value.as_slice(),
            NamePattern::Beginning(beginning) => value.as_slice().starts_with(beginning.as_slice()),
        }
    }
}
