// Each row of the table, from both sides.
use crate::packets::{back, there, to_self};
use book::{Book, Kind, Passage};
use fields::values::flags::{ACK, FIN, PSH, RST, SYN, URG};
use std::io;

// Any number will do: what the book answers does not depend on it.
pub const SEED: u64 = 20_406;

// Prints the label of a packet and the answer of its step. The book's own calls take a packet and a clock side by side.
pub fn show(
    rt: &impl Print,
    book: &mut Book,
    what: &str,
    passage: &Passage,
    clock: u32,
) -> io::Result<()> {
    let label = book.label(passage, clock);
    let answer = book.step(passage, clock);
    println!(rt; "  {clock} {what}: {label:?}, {answer:?}")
}

// Prints the label alone.
fn say(rt: &impl Print, book: &Book, what: &str, passage: &Passage, clock: u32) -> io::Result<()> {
    let label = book.label(passage, clock);
    println!(rt; "  {clock} {what}: {label:?}")
}

// Shows each step in a new book.
fn trial(rt: &HostRuntime, title: &str, steps: &[(&str, Passage, u32)]) -> io::Result<()> {
    println!(rt; "{title}")?;
    let mut book = Book::new(rt.alloc(), SEED)?;
    for (what, passage, clock) in steps {
        show(rt, &mut book, what, passage, *clock)?;
    }
    Ok(())
}

pub fn tcp(rt: &HostRuntime) -> io::Result<()> {
    trial(
        rt,
        "TCP, from opened to answered",
        &[
            ("SYN there", there(Kind::Tcp(SYN)), 0),
            ("SYN there", there(Kind::Tcp(SYN)), 119),
            ("FIN there", there(Kind::Tcp(FIN)), 238),
            ("ACK there", there(Kind::Tcp(ACK)), 357),
            ("SYN ACK back", back(Kind::Tcp(SYN + ACK)), 476),
            ("ACK there", there(Kind::Tcp(ACK)), 432_475),
            ("ACK back", back(Kind::Tcp(ACK)), 864_474),
            ("ACK back", back(Kind::Tcp(ACK)), 1_296_474),
        ],
    )
}

pub fn tcp_closing(rt: &HostRuntime) -> io::Result<()> {
    trial(
        rt,
        "TCP, closing",
        &[
            ("SYN there", there(Kind::Tcp(SYN)), 0),
            ("SYN ACK back", back(Kind::Tcp(SYN + ACK)), 1),
            ("FIN there", there(Kind::Tcp(FIN)), 2),
            ("ACK back", back(Kind::Tcp(ACK)), 121),
            ("ACK there", there(Kind::Tcp(ACK)), 240),
            ("FIN back", back(Kind::Tcp(FIN)), 359),
            ("ACK there", there(Kind::Tcp(ACK)), 479),
            ("SYN there", there(Kind::Tcp(SYN)), 480),
            ("FIN back", back(Kind::Tcp(FIN)), 481),
            ("ACK there", there(Kind::Tcp(ACK)), 600),
            ("ACK there", there(Kind::Tcp(ACK)), 720),
        ],
    )
}

pub fn tcp_reset(rt: &HostRuntime) -> io::Result<()> {
    trial(
        rt,
        "TCP, reset",
        &[
            ("SYN there", there(Kind::Tcp(SYN)), 0),
            ("RST there", there(Kind::Tcp(RST)), 1),
            ("SYN there", there(Kind::Tcp(SYN)), 2),
            ("RST ACK back", back(Kind::Tcp(RST + ACK)), 3),
            ("SYN back", back(Kind::Tcp(SYN)), 4),
            ("SYN ACK there", there(Kind::Tcp(SYN + ACK)), 5),
            ("RST FIN there", there(Kind::Tcp(RST + FIN)), 6),
            ("SYN there", there(Kind::Tcp(SYN)), 7),
            ("FIN back", back(Kind::Tcp(FIN)), 8),
            ("RST there", there(Kind::Tcp(RST)), 9),
            ("RST there", there(Kind::Tcp(RST)), 10),
        ],
    )
}

pub fn tcp_opening(rt: &HostRuntime) -> io::Result<()> {
    trial(
        rt,
        "TCP, what opens",
        &[
            ("no flag", there(Kind::Tcp(0)), 0),
            ("ACK", there(Kind::Tcp(ACK)), 0),
            ("FIN", there(Kind::Tcp(FIN)), 0),
            ("SYN ACK", there(Kind::Tcp(SYN + ACK)), 0),
            ("SYN FIN", there(Kind::Tcp(SYN + FIN)), 0),
            ("SYN RST", there(Kind::Tcp(SYN + RST)), 0),
            ("SYN PSH URG", there(Kind::Tcp(SYN + PSH + URG)), 0),
        ],
    )
}

pub fn udp(rt: &HostRuntime) -> io::Result<()> {
    trial(
        rt,
        "UDP",
        &[
            ("there", there(Kind::Udp), 0),
            ("there", there(Kind::Udp), 29),
            ("there", there(Kind::Udp), 59),
            ("back", back(Kind::Udp), 88),
            ("there", there(Kind::Udp), 267),
            ("back", back(Kind::Udp), 446),
            ("back", back(Kind::Udp), 626),
            ("there", there(Kind::Udp), 627),
        ],
    )
}

pub fn echo(rt: &HostRuntime) -> io::Result<()> {
    trial(
        rt,
        "Echo, and a pair that crosses",
        &[
            ("reply back", back(Kind::EchoReply), 0),
            ("request there", there(Kind::EchoRequest), 0),
            ("request there", there(Kind::EchoRequest), 29),
            ("reply there", there(Kind::EchoReply), 30),
            ("reply back", back(Kind::EchoReply), 58),
            ("request back", back(Kind::EchoRequest), 60),
            ("reply there", there(Kind::EchoReply), 61),
            ("request there", there(Kind::EchoRequest), 87),
            ("reply there", there(Kind::EchoReply), 91),
            ("reply back", back(Kind::EchoReply), 116),
            ("reply back", back(Kind::EchoReply), 146),
        ],
    )
}

// A packet from an end to itself fits its entry from the opener.
pub fn equal_ends(rt: &HostRuntime) -> io::Result<()> {
    trial(
        rt,
        "Both ends equal",
        &[
            ("UDP", to_self(Kind::Udp), 0),
            ("UDP", to_self(Kind::Udp), 29),
            ("request", to_self(Kind::EchoRequest), 30),
            ("reply", to_self(Kind::EchoReply), 31),
            ("request", to_self(Kind::EchoRequest), 32),
        ],
    )
}

// What has no connection, and protocols that do not meet.
pub fn unconnected(rt: &HostRuntime) -> io::Result<()> {
    trial(
        rt,
        "Unconnected packets, and other protocols between the same ends",
        &[
            ("unconnected", there(Kind::Unconnected), 0),
            ("request there", there(Kind::EchoRequest), 0),
            ("unconnected", there(Kind::Unconnected), 0),
            ("unconnected back", back(Kind::Unconnected), 0),
            ("UDP there", there(Kind::Udp), 0),
            ("ACK there", there(Kind::Tcp(ACK)), 0),
            ("UDP back", back(Kind::Udp), 0),
            ("reply back", back(Kind::EchoReply), 0),
        ],
    )
}

// Live while the clock is below the deadline, and up to the end of the clock.
pub fn edge(rt: &HostRuntime) -> io::Result<()> {
    println!(rt; "Created at 100 with lifetime 30")?;
    let mut book = Book::new(rt.alloc(), SEED)?;
    show(rt, &mut book, "there", &there(Kind::Udp), 100)?;
    say(rt, &book, "back", &back(Kind::Udp), 129)?;
    say(rt, &book, "back", &back(Kind::Udp), 130)?;
    println!(rt; "Created at the end of the clock")?;
    show(rt, &mut book, "SYN there", &there(Kind::Tcp(SYN)), u32::MAX)?;
    say(rt, &book, "ACK back", &back(Kind::Tcp(ACK)), u32::MAX)
}
