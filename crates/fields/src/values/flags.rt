// The six TCP flags: FIN 1, SYN 2, RST 4, PSH 8, ACK 16, URG 32.
ghost use Rattle.std.specs.Prelude.{◌≡◌, ◌%◌, ◌<◌};

pub const FIN: u8 = 1;

pub const SYN: u8 = 2;

pub const RST: u8 = 4;

pub const PSH: u8 = 8;

pub const ACK: u8 = 16;

pub const URG: u8 = 32;

#[derive(Clone, Copy, PartialEq, Eq, Debug)]
pub struct Flags {
    bits: u8,
    ghost within: { bits < 64 },
}

impl Flags {
    // The low six bits of a byte.
    pub fn of(byte: u8) -> Self
        ensures result { result.bits ≡ byte % 64 }
    {
        Flags { bits: byte % 64 }
    }

    pub fn bits(&self) -> u8
        ensures result { result ≡ self.now.bits }
    {
        self.bits
    }
}
