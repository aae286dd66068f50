// A run of bytes inside a packet, and the place in the packet where it begins.
#[derive(Clone, Copy, PartialEq, Eq, Debug)]
pub struct Part<'a> {
    pub bytes: &'a [u8],
    pub place: usize,
}
