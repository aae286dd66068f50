// What can be wrong with the lengths that a header states: each question is true where the check fails.
ghost use Rattle.std.specs.Prelude.{◌≡◌};
ghost use Rattle.reader.specs.Checks.{bad_header_length, bad_total_length};

use crate::header::Header;

impl Header<'_> {
    // The header is stated shorter than the least, or longer than what there is.
    pub(crate) fn has_bad_length(&self) -> bool
        ensures result { result ≡ bad_header_length self.now.bytes.now }
    {
        self.length() < 20 || self.bytes.len() < self.length()
    }

    // The packet is stated shorter than its header, or longer than what there is.
    pub(crate) fn has_bad_total_length(&self) -> bool
        ensures result { result ≡ bad_total_length self.now.bytes.now }
    {
        self.total_length() < self.length() || self.bytes.len() < self.total_length()
    }
}
