// A part of some bytes: a text, an id or a descriptor loop, by its place.
ghost use Rattle.std.specs.Prelude.{◌≡◌, ◌-◌, ◌<◌, length};
ghost use Rattle.isdb_mmt.specs.Formats.Part.{part_of, count_of_usize};

use isdb_tlv::bytes;

#[derive(Clone, Copy, Debug, PartialEq, Eq)]
pub struct Part {
    pub start: usize,
    pub length: usize,
}

impl Part {
    // The bytes themselves, out of those that the place counts in.
    pub fn of(self, b: &[u8]) -> &[u8]
        ensures { result.now ≡ part_of b.now self }
    {
        bytes::part(b, self.start, self.length)
    }
}

// How many bytes stand from a place on.
pub(crate) fn left(b: &[u8], at: usize) -> usize
    ensures { result ≡ length b.now - at }
{
    b.len().saturating_sub(at)
}

// A slice has fewer than 2^64 bytes, which a definition over lists does not know.
pub fn measured(b: &[u8])
    ensures { length b.now < count_of_usize }
{
    b.len();
}
