// Interface names: 1 to 15 bytes, each from 33 to 126 but not 43 or 47.
ghost use Rattle.std.specs.Prelude.{◌≡◌, ℕ, ◌<◌, ◌≤◌, true, slice_index};
ghost use Rattle.fields.specs.NameBytes.{name_byte};

pub mod methods;

// At most 15 name bytes.
// An array and a length: a name is copied with each packet, and no call after the making of a column allocates.
#[derive(Clone, Copy, PartialEq, Eq, Debug)]
pub struct NameText {
    bytes: [u8; 15],
    length: usize,
    ghost short: { length ≤ 15 },
    ghost lawful: { (k : ℕ) → k < length → name_byte (slice_index bytes k) ≡ true },
}

#[derive(Clone, Copy, PartialEq, Eq, Debug)]
pub struct InterfaceName {
    text: NameText,
    ghost some: { 0 < text.length },
}
