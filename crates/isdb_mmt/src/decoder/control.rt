// The place of a control message's packet id: the number last seen, the message that is being joined, the length of its MPT.
// The message's and the MPT's bytes lie in areas.
ghost use Rattle.std.specs.Prelude.{◌≡◌, ◌+◌, ◌*◌, ◌<◌, ◌≤◌, length};
ghost use Rattle.isdb_tlv.specs.Fields.{written};
ghost use Rattle.isdb_mmt.specs.Memory.Lent.{over};
ghost use Rattle.isdb_mmt.specs.Memory.Layout.{most_control_ids, control_places, control_size, state_size};
ghost use Rattle.isdb_mmt.specs.Memory.Session.{control_place_of, control_fields, control_at};

use crate::decoder::layout::{CONTROL_PLACES, CONTROL_SIZE};
use crate::decoder::place::flag;
use isdb_tlv::bytes;

// Flags beside their numbers and no Option: so they stand in the lent state.
#[derive(Clone, Copy)]
pub(crate) struct Control {
    pub packet_id: u32,
    // The last packet's number, where there was one.
    pub seen: bool,
    pub sequence: u32,
    // A message that is being joined: the flags of its first fragment, its length so far.
    pub joining: bool,
    pub long_length: bool,
    pub aggregated: bool,
    pub length: u32,
    pub mpt: bool,
    pub mpt_length: u32,
}

#[tactic(auto, unfolding(crate::specs::Memory::Session::control_place_of))]
pub(crate) fn control_of(p: &[u8]) -> Control
    ensures { result ≡ control_place_of p.now }
{
    Control {
        packet_id: bytes::get_u32(p, 0),
        seen: flag(p, 4),
        sequence: bytes::get_u32(p, 5),
        joining: flag(p, 9),
        long_length: flag(p, 10),
        aggregated: flag(p, 11),
        length: bytes::get_u32(p, 12),
        mpt: flag(p, 16),
        mpt_length: bytes::get_u32(p, 17),
    }
}

// The control place with the index i.
pub(crate) fn load_control(s: &[u8], i: usize) -> Control
    requires { i < most_control_ids }
    ensures { result ≡ control_at s.now i }
{
    control_of(bytes::part(s, CONTROL_PLACES + CONTROL_SIZE * i, CONTROL_SIZE))
}

fn put_control(p: &mut [u8], c: Control)
    requires { length p.old ≡ control_size }
    ensures { p.new ≡ written (control_fields c) }
{
    bytes::put4(
        p,
        0,
        0x4141,
        c.packet_id as u64,
        c.seen as u64,
        c.sequence as u64,
        c.joining as u64,
    );
    bytes::put4(
        p,
        10,
        0x1141,
        c.long_length as u64,
        c.aggregated as u64,
        c.length as u64,
        c.mpt as u64,
    );
    bytes::put_u32(p, 17, c.mpt_length);
}

pub(crate) fn store_control(s: &mut [u8], i: usize, c: Control)
    requires { (i < most_control_ids) × (state_size ≤ length s.old) }
    ensures { s.new ≡ over (control_places + control_size * i) (written (control_fields c)) s.old }
{
    let at = CONTROL_PLACES + CONTROL_SIZE * i;
    let end = at + CONTROL_SIZE;
    put_control(&mut s[at..end], c);
}
