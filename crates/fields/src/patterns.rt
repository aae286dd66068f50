// The patterns of values that conditions are made of, one kind a field. None exists that is unlawful.
pub mod address;
pub mod flags;
pub mod label;
pub mod name;
pub mod passing;
pub mod protocol;
