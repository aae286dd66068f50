// The eight fields of a packet: the values that each can have, the conditions on them, and what it means that a condition holds.
#![tactic(auto)]

pub mod condition;
pub mod field;
pub mod making;
pub mod patterns;
pub mod refusal;
pub mod values;
