// The ones' complement sum of a header's 16-bit words (RFC 1071).
ghost use Rattle.std.specs.Prelude.{◌≡◌, ◌≤◌, length};
ghost use Rattle.reader.specs.Sums.{carried, words_sum};

// The low 16 bits, with the carries above them added back in.
fn carry(sum: u32) -> u32
    ensures result { result ≡ carried sum }
{
    sum % 0x1_0000 + sum / 0x1_0000
}

// The carries of all words gather above the low 16 bits. They are added back once at the end, which may carry once more.
pub(crate) fn ones_sum(header: &[u8]) -> u16
    requires { length header.now ≤ 60 }
    ensures result { result ≡ words_sum header.now }
{
    let (words, _) = header.as_chunks::<2>();
    let mut sum = 0;
    for bytes in words {
        sum += u32::from(u16::from_be_bytes(*bytes));
    }
    carry(carry(sum)) as u16
}
