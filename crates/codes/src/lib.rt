// Columns on fields whose values are known by a code: protocol, flags, label.
#![tactic(auto)]

pub mod spread;
