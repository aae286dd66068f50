// Columns of conditions that ask how a value begins.
#![tactic(auto)]

pub mod address;
mod bits;
mod column;
mod compare;
mod indexed;
mod key;
mod keyed;
mod links;
pub mod name;
mod prefix;
mod ranges;
mod set;
mod stored;
mod stretches;
mod symbols;
