// Values that are known by a code.
ghost use Rattle.std.specs.Prelude.{◌≡◌, ℕ, ◌<◌, ◌≤◌};
ghost use Rattle.codes.specs.Codes.{protocol_of, flags_of, label_of, label_code};
ghost use Rattle.std.proofs.Common.{rules, arith, lit≤};
ghost use Rattle.codes.specs.Coding.{same_flags};

use fields::values::flags::Flags;
use fields::values::label::Label;
use fields::values::protocol::Protocol;

pub trait Coded: Copy {
    // how many codes there are
    const CODES: usize;

    ghost CODES: { ℕ };

    ghost coded: { Self → ℕ };

    ghost decoded: { ℕ → Self };

    fn to_code(self) -> usize
        ensures result { result ≡ coded self }
        ensures below { result < CODES };

    fn from_code(code: u8) -> Self
        ensures result { result ≡ decoded code };

    ghost back: { (v : Self) → decoded (coded v) ≡ v };

    ghost few: { CODES ≤ 256 };
}

impl Coded for Protocol {
    const CODES: usize = 256;

    ghost CODES = { 256 };

    ghost coded = { λ v. v.number };

    ghost decoded = { protocol_of };

    ghost back = { Prim.search rules };

    ghost few = { lit≤ tt };

    fn to_code(self) -> usize {
        self.number as usize
    }

    fn from_code(code: u8) -> Protocol {
        Protocol { number: code }
    }
}

impl Coded for Flags {
    const CODES: usize = 64;

    ghost CODES = { 64 };

    ghost coded = { λ v. v.bits };

    ghost decoded = { flags_of };

    ghost back = { λ v. same_flags (flags_of v.bits) v (omega arith) };

    ghost few = { lit≤ tt };

    fn to_code(self) -> usize {
        self.bits() as usize
    }

    fn from_code(code: u8) -> Flags {
        Flags::of(code)
    }
}

impl Coded for Label {
    const CODES: usize = 3;

    ghost CODES = { 3 };

    ghost coded = { label_code };

    ghost decoded = { label_of };

    ghost back = { Prim.search rules };

    ghost few = { lit≤ tt };

    // By hand both ways: the labels' own numbers are their weights in a set, which leave gaps.
    fn to_code(self) -> usize {
        match self {
            Label::New => 0,
            Label::Established => 1,
            Label::Invalid => 2,
        }
    }

    fn from_code(code: u8) -> Label {
        match code {
            0 => Label::New,
            1 => Label::Established,
            _ => Label::Invalid,
        }
    }
}
