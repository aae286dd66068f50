// One protocol, from 1 to 255.
ghost use Rattle.std.specs.Prelude.{◌≡◌, ◌<◌, MatchOption};

#[derive(Clone, Copy, PartialEq, Eq, Debug)]
pub struct ProtocolNumber {
    number: u8,
    ghost some: { 0 < number },
}

impl ProtocolNumber {
    // None for 0. A law of protocols alone, so that no other number shares this making.
    pub(crate) fn new(number: u8) -> Option<ProtocolNumber>
        ensures result { MatchOption result (number ≡ 0) (λ p. p.number ≡ number) }
    {
        if number == 0 {
            return None;
        }
        Some(ProtocolNumber { number })
    }

    pub fn number(&self) -> u8
        ensures result { result ≡ self.now.number }
    {
        self.number
    }
}
