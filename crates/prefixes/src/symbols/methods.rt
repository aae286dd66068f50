// The making and reading of strings of symbols.
ghost use Rattle.std.specs.Prelude.{◌≡◌, ◌<◌, ◌≤◌, [], ◌∷◌, ◌++◌, length};
ghost use Rattle.prefixes.specs.Spelled.{spelled};

use super::Symbols;

impl Symbols {
    // The empty string.
    pub(crate) fn new() -> Symbols
        ensures { spelled result ≡ [] }
    {
        Symbols {
            bytes: [0; 130],
            len: 0,
        }
    }

    // The string of these symbols.
    pub(crate) fn of(symbols: &[u8]) -> Symbols
        requires { length symbols.now ≤ 130 }
        ensures { spelled result ≡ symbols.now }
    {
        let len = symbols.len();
        let mut bytes = [0; 130];
        bytes[..len].copy_from_slice(symbols);
        Symbols { bytes, len }
    }

    // One symbol more, behind the others.
    pub(crate) fn push(&mut self, symbol: u8)
        requires { length (spelled self.old) < 130 }
        ensures { spelled self.new ≡ spelled self.old ++ symbol ∷ [] }
    {
        self.bytes[self.len] = symbol;
        self.len += 1;
    }

    pub(crate) fn as_slice(&self) -> &[u8]
        ensures { result.now ≡ spelled self.now }
    {
        &self.bytes[0..self.len]
    }
}
