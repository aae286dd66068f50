// A full book.
use crate::cases::{SEED, show};
use crate::packets::{end, server};
use book::{Answer, Book, Kind, Passage};
use fields::values::flags::{RST, SYN};
use std::io;

// A TCP packet of the n-th client.
fn nth(n: u16, flags: u8) -> Passage {
    Passage {
        kind: Kind::Tcp(flags),
        source: end(9, n),
        destination: server(),
    }
}

// How many of the clients from `first` to `last` could open a connection.
fn open(book: &mut Book, first: u16, last: u16, clock: u32) -> usize {
    (first..last)
        .map(|n| book.step(&nth(n, SYN), clock))
        .filter(|answer| *answer == Answer::Created)
        .count()
}

pub fn crowd(rt: &HostRuntime) -> io::Result<()> {
    println!(rt; "1,024 live entries")?;
    let mut book = Book::new(rt.alloc(), SEED)?;
    let created = open(&mut book, 0, 1024, 0);
    println!(rt; "  created {created}")?;
    show(rt, &mut book, "the 1,025th", &nth(1024, SYN), 10)?;
    show(rt, &mut book, "the first", &nth(0, SYN), 11)?;
    show(rt, &mut book, "the 1,025th", &nth(1024, SYN), 119)?;
    show(rt, &mut book, "the 8th, reset", &nth(7, RST), 119)?;
    show(rt, &mut book, "the 1,025th", &nth(1024, SYN), 119)?;
    show(rt, &mut book, "the 8th", &nth(7, SYN), 119)?;
    show(rt, &mut book, "the 8th", &nth(7, SYN), 120)?;
    let created = open(&mut book, 2000, 3024, 120);
    println!(rt; "  created {created}")?;
    show(rt, &mut book, "the 1,025th", &nth(1024, SYN), 121)?;
    show(rt, &mut book, "the second", &nth(1, SYN), 130)?;
    show(rt, &mut book, "the second", &nth(1, SYN), 131)
}
