// A book that looks at each of its lines in turn, to hold the real one against.
use book::{Answer, End, Kind, Passage};
use fields::values::flags::{ACK, FIN, RST, SYN};
use fields::values::label::Label;
use std::alloc::{AllocError, Global};

#[derive(Clone, Copy, PartialEq, Eq)]
enum Protocol {
    Tcp,
    Udp,
    Echo,
}

// The ends as one number each.
#[derive(Clone, Copy, PartialEq, Eq)]
struct Connection {
    protocol: Protocol,
    opener: u64,
    other: u64,
}

// How far a connection is.
#[derive(Clone, Copy)]
enum Stage {
    Fresh,
    Answered,
    Closing,
}

#[derive(Clone, Copy)]
struct Line {
    connection: Connection,
    stage: Stage,
    deadline: u64,
}

#[derive(Clone, Copy)]
enum Side {
    Opener,
    Other,
}

// The line that a packet fits, and the side that it came from.
#[derive(Clone, Copy)]
struct Fit {
    line: Line,
    side: Side,
}

#[derive(Drop)]
pub struct Plain {
    lines: Vec<Line>,
}

// What the book says of a packet and what its step answers.
#[derive(Clone, Copy, PartialEq, Eq)]
pub struct Judged {
    pub label: Label,
    pub answer: Answer,
}

// A function, and no From: neither type is of this crate.
fn number(end: End) -> u64 {
    u64::from(end.address.bits) * 65_536 + u64::from(end.port)
}

impl From<Kind> for Protocol {
    // Nothing unconnected is looked up or opened, so it does not matter what stands for it.
    fn from(kind: Kind) -> Protocol {
        match kind {
            Kind::Tcp(_) => Protocol::Tcp,
            Kind::Udp => Protocol::Udp,
            Kind::EchoRequest | Kind::EchoReply | Kind::Unconnected => Protocol::Echo,
        }
    }
}

impl From<&Passage> for Connection {
    // The connection of which the packet's source is the opener.
    fn from(passage: &Passage) -> Connection {
        Connection {
            protocol: Protocol::from(passage.kind),
            opener: number(passage.source),
            other: number(passage.destination),
        }
    }
}

impl Connection {
    fn turned(self) -> Connection {
        Connection {
            opener: self.other,
            other: self.opener,
            ..self
        }
    }
}

fn flags(kind: Kind) -> u8 {
    match kind {
        Kind::Tcp(flags) => flags,
        _ => 0,
    }
}

fn opens(kind: Kind) -> bool {
    match kind {
        Kind::Tcp(flags) => flags & (SYN + ACK + FIN + RST) == SYN,
        Kind::Udp | Kind::EchoRequest => true,
        Kind::EchoReply | Kind::Unconnected => false,
    }
}

fn lifetime(protocol: Protocol, stage: Stage) -> u32 {
    match (protocol, stage) {
        (Protocol::Echo, _) | (Protocol::Udp, Stage::Fresh) => 30,
        (Protocol::Udp, _) => 180,
        (Protocol::Tcp, Stage::Answered) => 432_000,
        (Protocol::Tcp, _) => 120,
    }
}

impl Fit {
    // Whether the opener speaks again before it has an answer.
    fn is_again(&self) -> bool {
        matches!((self.line.stage, self.side), (Stage::Fresh, Side::Opener))
    }

    fn label(&self) -> Label {
        if self.is_again() {
            Label::New
        } else {
            Label::Established
        }
    }

    // The stage after a packet with these flags.
    fn next_stage(&self, flags: u8) -> Stage {
        if self.is_again() {
            return Stage::Fresh;
        }
        match self.line.stage {
            Stage::Fresh | Stage::Answered if flags & FIN == 0 => Stage::Answered,
            _ => Stage::Closing,
        }
    }
}

impl Plain {
    pub fn new(heap: Global) -> Plain {
        Plain {
            lines: Vec::new(heap),
        }
    }

    fn find(&self, connection: Connection) -> Option<Line> {
        self.lines
            .iter()
            .find(|line| line.connection == connection)
            .copied()
    }

    fn fit(&self, passage: &Passage) -> Option<Fit> {
        let connection = Connection::from(passage);
        let from_opener = self.find(connection).map(|line| Fit {
            line,
            side: Side::Opener,
        });
        let from_other = self.find(connection.turned()).map(|line| Fit {
            line,
            side: Side::Other,
        });
        match passage.kind {
            Kind::Unconnected => None,
            Kind::EchoRequest => from_opener,
            Kind::EchoReply => from_other,
            Kind::Tcp(_) | Kind::Udp => from_opener.or(from_other),
        }
    }

    // Writes a line that lives from the clock on.
    fn write(
        &mut self,
        connection: Connection,
        stage: Stage,
        clock: u32,
    ) -> Result<(), AllocError> {
        let deadline = u64::from(clock) + u64::from(lifetime(connection.protocol, stage));
        self.lines.push(Line {
            connection,
            stage,
            deadline,
        })?;
        Ok(())
    }

    fn renew(&mut self, fit: &Fit, flags: u8, clock: u32) -> Result<Answer, AllocError> {
        let connection = fit.line.connection;
        self.lines.retain(|line| line.connection != connection);
        if flags & RST != 0 {
            return Ok(Answer::Erased);
        }
        self.write(connection, fit.next_stage(flags), clock)?;
        Ok(Answer::Renewed)
    }

    fn open(&mut self, passage: &Passage, clock: u32) -> Result<Answer, AllocError> {
        if self.lines.len() >= 1024 {
            return Ok(Answer::BookFull);
        }
        self.write(Connection::from(passage), Stage::Fresh, clock)?;
        Ok(Answer::Created)
    }

    pub fn judge(&mut self, passage: &Passage, clock: u32) -> Result<Judged, AllocError> {
        self.lines.retain(|line| line.deadline > u64::from(clock));
        if let Some(fit) = self.fit(passage) {
            return Ok(Judged {
                label: fit.label(),
                answer: self.renew(&fit, flags(passage.kind), clock)?,
            });
        }
        if !opens(passage.kind) {
            return Ok(Judged {
                label: Label::Invalid,
                answer: Answer::Nothing,
            });
        }
        Ok(Judged {
            label: Label::New,
            answer: self.open(passage, clock)?,
        })
    }
}
