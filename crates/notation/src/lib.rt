// The notation in which administrators write conditions, values and rules.
#![tactic(auto)]

mod address;
pub mod condition;
mod field;
mod flags;
mod interface;
mod labels;
mod names;
mod number;
mod port;
mod protocol;
pub mod rule;
pub mod value;
