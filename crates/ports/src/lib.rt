// The column on ports.
#![tactic(auto)]

pub mod values;
