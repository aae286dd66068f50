// Numbers in a packet, the most significant byte first. Each width is read by the library's own call; one generic reader would name the width at every use.
ghost use Rattle.std.specs.Prelude.{◌≡◌, ◌+◌, ◌*◌, ◌<◌, length};
ghost use Rattle.reader.specs.Drawings.{bits};

// The byte at `i`.
pub(crate) fn octet(bytes: &[u8], i: usize) -> u8
    requires { i < length bytes.now }
    ensures result { result ≡ bits (8 * i) 8 bytes.now }
{
    bytes[i]
}

// The 16 bits at `i`.
pub(crate) fn word(bytes: &[u8], i: usize) -> u16
    requires { i + 1 < length bytes.now }
    ensures result { result ≡ bits (8 * i) 16 bytes.now }
{
    u16::from_be_bytes([octet(bytes, i), octet(bytes, i + 1)])
}

// The 32 bits at `i`.
pub(crate) fn long(bytes: &[u8], i: usize) -> u32
    requires { i + 3 < length bytes.now }
    ensures result { result ≡ bits (8 * i) 32 bytes.now }
{
    u32::from_be_bytes([
        octet(bytes, i),
        octet(bytes, i + 1),
        octet(bytes, i + 2),
        octet(bytes, i + 3),
    ])
}
