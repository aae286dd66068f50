// A set of labels, not empty.
ghost use Rattle.std.specs.Prelude.{◌≡◌, ◌<◌, MatchOption};

// The sum of the values of its labels: from 1 to 7.
#[derive(Clone, Copy, PartialEq, Eq, Debug)]
pub struct LabelSet {
    members: u8,
    ghost some: { 0 < members },
    ghost few: { members < 8 },
}

impl LabelSet {
    // None for 0 and for what is above 7. A law of labels alone, so that no other number shares this making.
    pub(crate) fn new(members: u8) -> Option<LabelSet>
        ensures result { MatchOption result ((0 < members) × (members < 8) → ⊥) (λ s. s.members ≡ members) }
    {
        if members == 0 || members >= 8 {
            return None;
        }
        Some(LabelSet { members })
    }

    pub fn members(&self) -> u8
        ensures result { result ≡ self.now.members }
    {
        self.members
    }
}
