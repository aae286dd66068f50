// A long run by chance through the book and the plain one.
use crate::chance::Chance;
use crate::packets::end;
use crate::plain::{Judged, Plain};
use book::{Answer, Book, End, Kind, Passage};
use fields::values::flags::{ACK, FIN, SYN};
use std::alloc::AllocError;
use std::io;

const STEPS: u32 = 200_000;

// What the run came by.
#[derive(Default, Drop)]
struct Tally {
    agree: u32,
    nothing: u32,
    created: u32,
    renewed: u32,
    erased: u32,
    full: u32,
}

impl Tally {
    fn count(&mut self, answer: Answer) {
        match answer {
            Answer::Nothing => self.nothing = self.nothing.wrapping_add(1),
            Answer::Created => self.created = self.created.wrapping_add(1),
            Answer::Renewed => self.renewed = self.renewed.wrapping_add(1),
            Answer::Erased => self.erased = self.erased.wrapping_add(1),
            Answer::BookFull => self.full = self.full.wrapping_add(1),
        }
    }
}

// Resets are rare, so that the book fills.
fn kind(chance: &mut Chance) -> Kind {
    match chance.below(16) {
        0..=4 => Kind::Udp,
        5 | 6 => Kind::EchoRequest,
        7 => Kind::EchoReply,
        8 => Kind::Unconnected,
        9..=11 => Kind::Tcp(SYN),
        12 => Kind::Tcp(ACK),
        13 => Kind::Tcp(ACK + FIN),
        _ => Kind::Tcp((chance.below(64) % 64) as u8),
    }
}

// One of so many hosts and of twice as many ports.
fn someone(chance: &mut Chance, hosts: u8) -> End {
    let host = chance.below(u32::from(hosts)) % 256;
    let port = chance.below(u32::from(hosts) * 2) % 65_536;
    end(host as u8, port as u16)
}

// The clock stands mostly still, and seldom leaps over a lifetime.
fn tick(chance: &mut Chance, clock: u32) -> u32 {
    let by = match chance.below(65_536) {
        0..=3 => 500_000,
        4..=30 => 200,
        31..=150 => 29,
        151..=900 => 1,
        _ => 0,
    };
    clock.saturating_add(by)
}

fn ask(book: &mut Book, passage: &Passage, clock: u32) -> Judged {
    let label = book.label(passage, clock);
    let answer = book.step(passage, clock);
    Judged { label, answer }
}

// Runs both books over the same packets. Few hosts at first in each round, so that packets meet entries; then
// enough for the book to fill.
fn compare(book: &mut Book, plain: &mut Plain) -> Result<Tally, AllocError> {
    let mut tally = Tally::default();
    let mut chance = Chance::new(1_024);
    let mut clock: u32 = 0;
    for n in 0..STEPS {
        let hosts = 2 + (n / 1000 % 5) as u8;
        clock = tick(&mut chance, clock);
        let passage = Passage {
            kind: kind(&mut chance),
            source: someone(&mut chance, hosts),
            destination: someone(&mut chance, hosts),
        };
        let told = ask(book, &passage, clock);
        let expected = plain.judge(&passage, clock)?;
        if told == expected {
            tally.agree = tally.agree.wrapping_add(1);
        }
        tally.count(told.answer);
    }
    Ok(tally)
}

pub fn run(rt: &HostRuntime) -> io::Result<()> {
    println!(rt; "{STEPS} steps by chance, against a book that scans a list")?;
    let mut book = Book::new(rt.alloc(), 7)?;
    let mut plain = Plain::new(rt.alloc());
    let Tally {
        agree,
        nothing,
        created,
        renewed,
        erased,
        full,
    } = compare(&mut book, &mut plain)?;
    println!(rt;
        "  nothing {nothing}, created {created}, renewed {renewed}, erased {erased}, book full {full}"
    )?;
    println!(rt; "  {agree} agree")
}
