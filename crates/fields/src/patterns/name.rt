// A whole interface name, or how one begins.
ghost use Rattle.std.specs.Prelude.{◌≤◌};

use crate::values::name::{InterfaceName, NameText};

pub mod methods;

// 0 to 14 name bytes.
#[derive(Clone, Copy, PartialEq, Eq, Debug)]
pub struct NameBeginning {
    text: NameText,
    ghost short: { text.length ≤ 14 },
}

#[derive(Clone, Copy, PartialEq, Eq, Debug)]
pub enum NamePattern {
    Whole(InterfaceName),
    Beginning(NameBeginning),
}
