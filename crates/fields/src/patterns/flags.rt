// The flags that are wanted among those of a mask.
ghost use Rattle.std.specs.Prelude.{◌≡◌, ◌<◌, MatchOption, bit_and};

// The mask is below 64, and the wanted bits lie inside it.
#[derive(Clone, Copy, PartialEq, Eq, Debug)]
pub struct FlagsPattern {
    mask: u8,
    wanted: u8,
    ghost few: { mask < 64 },
    ghost inside: { bit_and wanted mask ≡ wanted },
}

impl FlagsPattern {
    // None where the mask is above 63, or a wanted bit is not in the mask.
    pub(crate) fn new(mask: u8, wanted: u8) -> Option<FlagsPattern>
        ensures result { MatchOption result ((mask < 64) × (bit_and wanted mask ≡ wanted) → ⊥) (λ p. (p.mask ≡ mask) × (p.wanted ≡ wanted)) }
    {
        if mask >= 64 || wanted & mask != wanted {
            return None;
        }
        Some(FlagsPattern { mask, wanted })
    }

    pub fn mask(&self) -> u8
        ensures result { result ≡ self.now.mask }
    {
        self.mask
    }

    pub fn wanted(&self) -> u8
        ensures result { result ≡ self.now.wanted }
    {
        self.wanted
    }
}
