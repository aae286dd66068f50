// What the reader says of an interface name.
use crate::answer::refusal;
use reader::InterfaceName;
use std::io;

pub(crate) fn name_answer(rt: &HostRuntime, title: &str, bytes: &[u8]) -> io::Result<()> {
    match InterfaceName::new(bytes) {
        Ok(name) => println!(rt; "{title}: {} bytes", name.as_slice().len()),
        Err(found) => refusal(rt, title, found),
    }
}
