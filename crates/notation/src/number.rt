// Decimal numbers.
use std::num::ParseIntError;
use std::str::FromStr;

// The number that the text spells in digits alone, if its type has it.
pub(crate) fn decimal<N: FromStr<Err = ParseIntError>>(text: &str) -> Option<N> {
    if text.bytes().all(|byte| byte.is_ascii_digit()) {
        text.parse::<N>().ok()
    } else {
        None
    }
}
