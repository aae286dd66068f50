// Bytes written as hex digits.
use std::alloc::{AllocError, Global};

// Capital letters are no digits here. By the ranges themselves: the library's `to_digit` takes any radix, and a long line nearly twice as long.
fn digit(c: u8) -> Option<u8> {
    match c {
        b'0'..=b'9' => Some(c - b'0'),
        b'a'..=b'f' => Some(c - b'a' + 10),
        _ => None,
    }
}

// Two digits to a byte; what is no digit, as a blank, stands only for the eye.
// In one pass: a line may be long, and its digits are not kept beside its bytes.
pub(crate) fn octets(heap: Global, text: &str) -> Result<Vec<u8>, AllocError> {
    let mut bytes = Vec::new(heap);
    let mut first = None;
    for low in text.bytes().filter_map(digit) {
        match first.take() {
            Some(high) => bytes.push(high << 4 | low)?,
            None => first = Some(low),
        }
    }
    Ok(bytes)
}
