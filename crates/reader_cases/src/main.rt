// Reads packets and interface names written as hex, and prints what the reader says of each.
#![tactic(auto)]

mod answer;
mod hex;
mod names;

use answer::answer;
use hex::octets;
use names::name_answer;
use std::io;

// A line is `packet TITLE: HEX` or `name TITLE: HEX`; any other line heads a group, and is printed as it is.
fn case(rt: &HostRuntime, line: &str) -> io::Result<()> {
    let Some((title, text)) = line.split_once(": ") else {
        return println!(rt; "{line}");
    };
    let bytes = octets(rt.alloc(), text)?;
    if title.starts_with("name") {
        name_answer(rt, title, bytes.as_slice())
    } else {
        answer(rt, title, bytes.as_slice())
    }
}

fn main(rt: HostRuntime) -> io::Result<()> {
    for line in rt.lines(rt.alloc()) {
        case(&rt, line?.as_str())?;
    }
    Ok(())
}
