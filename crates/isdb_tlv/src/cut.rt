// TLV packets in a recording (ARIB STD-B32 Part 3, 3.5): the byte 0x7F, the kind, a length of two bytes, and so many data.
ghost use Rattle.std.specs.Prelude.{◌≡◌};
ghost use Rattle.isdb_tlv.specs.Cut.{cut_at};

use crate::bytes;

// Where reading a recording stops: at its end, at the first byte of what is no packet or not whole, or at a packet that is
// turned down, with the question's number: what it asks of a session is not known here.
#[derive(Clone, Copy, Debug, PartialEq, Eq)]
pub enum Stop {
    Clean,
    Bad(u64),
    Refused(u8),
}

// What stands at a place.
#[derive(Clone, Copy, Debug, PartialEq, Eq)]
pub enum Cut {
    // A packet: its kind, the place and the number of its data, and the place of what follows.
    Packet {
        kind: u8,
        start: usize,
        length: usize,
        next: usize,
    },
    // Nothing is left.
    End,
    // What is there may be the start of a packet, which is not whole.
    Short,
    // No packet: another first byte, or more data than may be.
    Bad,
}

// What stands at a place, where a packet has at most so many data.
#[tactic(auto, unfolding(crate::specs::Cut::cut_at))]
pub fn cut_at(input: &[u8], most: usize, at: usize) -> Cut
    ensures { result ≡ cut_at input.now most at }
{
    let n = input.len();
    if n <= at {
        return Cut::End;
    }
    if input[at] != 0x7F {
        return Cut::Bad;
    }
    if n - at < 4 {
        return Cut::Short;
    }
    let length = usize::from(bytes::get_u16(input, at + 2));
    if most < length {
        return Cut::Bad;
    }
    if n - at - 4 < length {
        return Cut::Short;
    }
    Cut::Packet {
        kind: input[at + 1],
        start: at + 4,
        length,
        next: at + 4 + length,
    }
}
