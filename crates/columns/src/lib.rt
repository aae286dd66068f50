// Columns: for one field, an ordered list of conditions that is read as a row of bits.
#![tactic(auto)]

pub mod column;
pub mod examples;
pub mod inverting;
pub mod table;
