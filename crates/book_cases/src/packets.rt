// Packets to ask the book about.
use book::{End, Kind, Passage};
use fields::values::address::Address;

// 10.0.0.host
pub fn end(host: u8, port: u16) -> End {
    End {
        address: Address {
            bits: 0x0a00_0000 + u32::from(host),
        },
        port,
    }
}

pub fn client() -> End {
    end(1, 40_000)
}

pub fn server() -> End {
    end(2, 443)
}

fn from_to(source: End, destination: End, kind: Kind) -> Passage {
    Passage {
        kind,
        source,
        destination,
    }
}

// From the client to the server.
pub fn there(kind: Kind) -> Passage {
    from_to(client(), server(), kind)
}

// From the server to the client.
pub fn back(kind: Kind) -> Passage {
    from_to(server(), client(), kind)
}

// From the client to itself.
pub fn to_self(kind: Kind) -> Passage {
    from_to(client(), client(), kind)
}
