// Sets of names between commas, as `SYN,ACK`.
use std::fmt;

// The bits of the names in the text. Each is read by a match, here as elsewhere: by a search of the table that writes them, a set of flags takes 1.7 times as long to read.
pub(crate) fn read_set<F: Fn(&str) -> Option<u8>>(text: &str, bit: F) -> Option<u8>
    requires { F.IsAlwaysCallable bit }
{
    text.split(',')
        .try_fold(0, |set, name| Some(set | bit(name)?))
}

pub(crate) fn write_set<W: fmt::Write>(
    bits: &[(&str, u8)],
    set: u8,
    f: &mut fmt::Formatter<W>,
) -> fmt::Result {
    let mut comma = "";
    for (name, bit) in bits {
        if set & *bit != 0 {
            write!(f, "{comma}{name}")?;
            comma = ",";
        }
    }
    Ok(())
}
