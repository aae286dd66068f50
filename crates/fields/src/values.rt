// The values of the fields. None exists that its field cannot have.
pub mod address;
pub mod flags;
pub mod label;
pub mod name;
pub mod port;
pub mod protocol;
