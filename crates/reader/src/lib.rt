// Reads IPv4 packets in place: checks a packet once, and hands out its header, its payload and its fields.
#![tactic(auto)]

mod checks;
mod checksum;
mod datagram;
mod flags;
mod header;
mod numbers;
pub mod packet;
pub mod part;
mod read;
mod refuse;
mod transport;
pub mod values;

// A packet comes with the names of its interfaces, whose making is the first of the checks.
pub use fields::values::name::InterfaceName;
