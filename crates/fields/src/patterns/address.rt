// The addresses that begin with given bits.
ghost use Rattle.std.specs.Prelude.{◌≡◌, ◌-◌, ◌%◌, ◌^◌, ◌≤◌};

pub mod methods;

// The first `length` bits of `bits`; the bits behind them are zero.
#[derive(Clone, Copy, PartialEq, Eq, Debug)]
pub struct AddressPrefix {
    bits: u32,
    length: u32,
    ghost short: { length ≤ 32 },
    ghost bare: { bits % 2 ^ (32 - length) ≡ 0 },
}
