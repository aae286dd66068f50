// The book on examples, and held against a plain one over a long run by chance.
#![tactic(auto)]

mod cases;
mod chance;
mod crowd;
mod packets;
mod plain;
mod run;

use std::io;

fn main(rt: HostRuntime) -> io::Result<()> {
    cases::tcp(&rt)?;
    cases::tcp_closing(&rt)?;
    cases::tcp_reset(&rt)?;
    cases::tcp_opening(&rt)?;
    cases::udp(&rt)?;
    cases::echo(&rt)?;
    cases::equal_ends(&rt)?;
    cases::unconnected(&rt)?;
    cases::edge(&rt)?;
    crowd::crowd(&rt)?;
    run::run(&rt)
}
