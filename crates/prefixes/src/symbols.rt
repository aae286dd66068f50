// Strings of symbols, as keys and prefixes are spelled.
ghost use Rattle.std.specs.Prelude.{◌≤◌};

mod methods;

// A string of at most 130 symbols. It holds them itself, so that none is allocated for a key.
// It shares no type with a name's text, whose bytes obey a law.
#[derive(Clone, Copy)]
pub struct Symbols {
    bytes: [u8; 130],
    len: usize,
    ghost fits: { len ≤ 130 },
}
