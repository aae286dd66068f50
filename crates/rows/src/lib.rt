// Rows of 512 bits, one bit for each rule of a list.
#![tactic(auto)]

mod row;
mod word;

pub use row::{PLACES, Row};
