// The packets that are met most, told by a few tests: compressed IP without a header, MMTP without packet counter and extension, one timed
// unit, for an id whose last packet was the one before it, of the same MPU. A whole unit where no object is held: of the place a number and
// two counts change. A middle part where one is held and has room for it: a number, a count and the object's length. What such a packet
// leaves and hands out is what `take` would; any other one is left to it.
ghost use Rattle.std.specs.Prelude.{◌≡◌, ◌+◌, ◌<◌, ◌≤◌, true, false, [], ◌∷◌, length};
ghost use Rattle.isdb_tlv.specs.Bytes.{be};
ghost use Rattle.isdb_tlv.specs.Fields.{field, written, puts};
ghost use Rattle.isdb_mmt.specs.Memory.Layout.{most_media_ids};
ghost use Rattle.isdb_mmt.specs.Memory.Session.{media_place_of, media_fields, media_at};
ghost use Rattle.isdb_mmt.specs.Memory.Check.{PlacesThere};
ghost use Rattle.isdb_mmt.specs.Memory.Lending.{lent_mut, SameBuffers};
ghost use Rattle.isdb_mmt.specs.Decoder.Packet.{media_of};
ghost use Rattle.isdb_mmt.specs.Pushes.Push.{input};
ghost use Rattle.isdb_mmt.specs.Pushes.Giving.{Gave};
ghost use Rattle.isdb_mmt.specs.Pushes.MediaPush.{MediaPushed};
ghost use Rattle.isdb_mmt.specs.Pushes.MediaCommit.{state_after};
ghost use Rattle.isdb_mmt.specs.declared.decoder.place.PlaceFor.TheVariants.{Own};
ghost use Rattle.isdb_mmt.specs.Pushes.Plain.{whole_unit, middle_part, is_mpu, is_unit, is_next, growing, plain_header, next_of, grown_of, CanRaise, CanStoreNext, CanStorePlain, NextAt, FreeHeader, CanGrow, GrownAt, CanCommitPart, PartLaid, CanPushUnit, WholeUnit, unit_bytes, RoomForUnit, UnitPushed, CanTryPlain, PlainPushed};

use crate::decoder::layout::{
    COUNTERS, HELD, MEDIA_PLACES, MEDIA_SIZE, OBJECT, OBJECT_LENGTH, STATS, USED,
};
use crate::decoder::media::Object;
use crate::decoder::place::flag;
use crate::decoder::records::ROW_SIZE;
use crate::decoder::session::SessionMut;
use crate::decoder::{place, records, take};
use crate::mpu;
use crate::mpu::{MfuHeader, PayloadHeader};
use isdb_tlv::bytes;
use isdb_tlv::mmtp::{FecType, Header, PayloadType};

// Whether the packet was taken, with one record and so many bytes of data handed out, or with none.
#[derive(Clone, Copy)]
pub(crate) enum Plain {
    No,
    Yes(usize),
    Grown,
}

// The flags of a payload of one timed unit that is whole, and of a middle part of an object.
const WHOLE: u8 = 0x28;

const MIDDLE: u8 = 0x2C;

// An MPU payload starts at 15.
#[tactic(auto, unfolding(crate::specs::Pushes::Plain::is_mpu))]
fn is_mpu(kind: u8, b: &[u8]) -> bool
    ensures { result ≡ is_mpu kind b.now }
{
    kind == 3 && 15 <= b.len() && b[2] == 0x61 && b[3] < 32 && b[3] / 2 % 2 != 1 && b[4] % 64 == 0
}

// One timed unit is all that the payload holds, under these flags.
#[tactic(auto, unfolding(crate::specs::Pushes::Plain::is_unit))]
fn is_unit(p: &[u8], flags: u8) -> bool
    ensures { result ≡ is_unit flags p.now }
{
    if p.len() < 22 {
        return false;
    }
    let n = bytes::get_u16(p, 0) as usize;
    let headless = n < 20;
    if headless {
        return false;
    }
    if p.len() < n + 2 {
        return false;
    }
    p[2] == flags
}

// Whether packet n of an MPU is the next one of a place.
#[tactic(auto, unfolding(crate::specs::Pushes::Plain::is_next, crate::specs::Memory::Session::media_place_of))]
fn is_next(p: &[u8], n: u32, mpu: u32) -> bool
    ensures { result ≡ is_next (media_place_of p.now) n mpu }
{
    flag(p, 4)
        && flag(p, 9)
        && bytes::get_u32(p, 10) == mpu
        && mpu::follows_on(bytes::get_u32(p, 5), n)
}

// Its place, where it is.
#[tactic(auto, using(crate::proofs::PlainTests::used_there, crate::proofs::PlainTests::places_in, crate::proofs::PlainTests::stride_fits, crate::proofs::PlainTests::place_fits))]
fn next_place(s: &[u8], id: u16, n: u32, mpu: u32) -> Option<usize>
    requires { PlacesThere s.now }
    ensures { NextAt s.now id n mpu result }
{
    let ids = place::word(s, USED);
    let i = place::find(s, MEDIA_PLACES, MEDIA_SIZE, ids as usize, id as u32)?;
    let at = MEDIA_PLACES + MEDIA_SIZE * i;
    if is_next(bytes::part(s, at, MEDIA_SIZE), n, mpu) {
        return Some(i);
    }
    None
}

// Whether a place holds an object of timed units.
#[tactic(auto, unfolding(crate::specs::Pushes::Plain::growing, crate::specs::Memory::Session::media_place_of))]
fn grows(p: &[u8]) -> bool
    ensures { result ≡ growing (media_place_of p.now) }
{
    flag(p, HELD) && flag(p, OBJECT + 5) && !flag(p, OBJECT + 20)
}

// How long the object of place i is with n bytes more, where they have room in its area.
fn grown_length(s: &[u8], i: usize, n: usize) -> Option<u32>
    requires { CanGrow s.now i n }
    ensures { GrownAt s.now i n result }
{
    let p = bytes::part(s, MEDIA_PLACES + MEDIA_SIZE * i, MEDIA_SIZE);
    if !grows(p) {
        return None;
    }
    let k = bytes::get_u32(p, OBJECT_LENGTH) as u64 + n as u64;
    if place::long(s, 24) < k {
        return None;
    }
    Some(k as u32)
}

// The header of a payload for place i, where it holds no object.
#[tactic(auto, using(crate::proofs::PlainTests::free_header))]
fn unit_header(s: &[u8], i: usize, b: &[u8]) -> Option<PayloadHeader>
    requires { i < most_media_ids }
    ensures { FreeHeader s.now i b.now result }
{
    let p = bytes::part(s, MEDIA_PLACES + MEDIA_SIZE * i, MEDIA_SIZE);
    if flag(p, HELD) {
        return None;
    }
    mpu::parse_header(b)
}

#[tactic(auto, using(crate::proofs::PlainStores::raised))]
fn raise(s: &mut [u8], at: usize)
    requires { CanRaise s.old at }
    ensures { s.new ≡ puts at (field 8 (be 8 s.old at + 1) ∷ []) s.old }
{
    let n = place::long(s, at) + 1;
    place::put_long(s, at, n);
}

#[tactic(auto, using(crate::proofs::PlainStores::can_raise_packets, crate::proofs::PlainStores::can_raise_mfus, crate::proofs::PlainStores::stored_next))]
fn store_next(p: &mut [u8], n: u32)
    requires { CanStoreNext p.old }
    ensures { p.new ≡ written (media_fields (next_of (media_place_of p.old) n)) }
{
    place::octets(p);
    bytes::put4(p, 4, 0x1410, 1, n as u64, 1, 0);
    bytes::put4(p, HELD, 0x1411, 0, 0, 0, 0);
    bytes::put4(p, OBJECT + 6, 0x4441, 0, 0, 0, 0);
    bytes::put4(p, OBJECT + 19, 0x1144, 0, 0, 0, 0);
    raise(p, STATS);
    raise(p, STATS + 24);
}

#[tactic(auto, using(crate::proofs::PlainStores::can_next, crate::proofs::PlainStores::can_raise_plain))]
fn store_plain(s: &mut [u8], i: usize, n: u32)
    requires { CanStorePlain s.old i }
    ensures { s.new ≡ state_after s.old (next_of (media_at s.old i) n) (Own i) }
{
    let at = MEDIA_PLACES + MEDIA_SIZE * i;
    let end = at + MEDIA_SIZE;
    store_next(&mut s[at..end], n);
    raise(s, COUNTERS);
}

// With packet n the object has k bytes.
#[tactic(auto, using(crate::proofs::PlainStores::can_raise_grown, crate::proofs::PlainStores::stored_grown))]
fn store_grown(p: &mut [u8], n: u32, k: u32)
    requires { CanStoreNext p.old }
    ensures { p.new ≡ written (media_fields (grown_of (media_place_of p.old) n k)) }
{
    place::octets(p);
    let rap = flag(p, OBJECT + 4);
    bytes::put4(p, 4, 0x1410, 1, n as u64, 1, 0);
    bytes::put_u8(p, HELD, 1);
    bytes::put_u8(p, OBJECT + 4, rap as u8);
    bytes::put_u8(p, OBJECT + 5, 1);
    bytes::put4(p, OBJECT + 20, 0x1440, 0, 0, k as u64, 0);
    raise(p, STATS);
}

#[tactic(auto, using(crate::proofs::PlainStores::can_next, crate::proofs::PlainStores::can_raise_part))]
fn store_part(s: &mut [u8], i: usize, n: u32, k: u32)
    requires { CanStorePlain s.old i }
    ensures { s.new ≡ state_after s.old (grown_of (media_at s.old i) n k) (Own i) }
{
    let at = MEDIA_PLACES + MEDIA_SIZE * i;
    let end = at + MEDIA_SIZE;
    store_grown(&mut s[at..end], n, k);
    raise(s, COUNTERS);
}

// The data of a payload behind those of the object that place i holds, which has k bytes with them.
fn commit_part(state: &mut [u8], objects: &mut [u8], b: &[u8], i: usize, n: u32, k: u32)
    requires { CanCommitPart state.old objects.old b.now i k }
    ensures { PartLaid state.old objects.old b.now i n k state.new objects.new }
{
    let d = bytes::rest(mpu::declared(b), 22);
    let area = place::long(state, 24) as usize;
    place::put_in_area(objects, i, area, k as usize - d.len(), d);
    store_part(state, i, n, k);
}

// A clear payload of one middle part. Of what is lent, the state and the objects are looked at.
#[tactic(auto, using(crate::proofs::PlainTests::data_there, crate::proofs::PlainPushes::unit_left))]
fn push_part(session: &mut SessionMut<'_>, h: Header, b: &[u8], rows: &[u8], out: &[u8]) -> Plain
    requires { CanPushUnit middle_part (lent_mut session.old) h b.now }
    ensures same_buffers { SameBuffers session.old session.new }
    ensures pushed { UnitPushed (lent_mut session.old) h b.now rows.now out.now result (lent_mut session.new) rows.now out.now }
{
    let state = &mut *session.state;
    let objects = &mut *session.objects;
    let n = bytes::get_u16(b, 0) as usize - 20;
    match next_place(state, h.packet_id, h.sequence, bytes::get_u32(b, 4)) {
        None => Plain::No,
        Some(i) => match grown_length(state, i, n) {
            None => Plain::No,
            Some(k) => {
                commit_part(state, objects, b, i, h.sequence, k);
                Plain::Grown
            }
        },
    }
}

// The one unit that the declared bytes q hold: one record.
#[tactic(auto, using(crate::proofs::PlainPushes::length_cast, crate::proofs::PlainPushes::data_there))]
fn give_unit(q: &[u8], mpu: u32, id: u16, rap: bool, rows: &mut [u8], out: &mut [u8])
    requires { RoomForUnit q.now rows.old out.old }
    ensures { Gave q.now true false id mpu rap rows.old out.old rows.new out.new }
{
    let header = MfuHeader {
        movie_fragment_sequence_number: bytes::get_u32(q, 8),
        sample_number: bytes::get_u32(q, 12),
        offset: bytes::get_u32(q, 16),
        priority: q[20],
        dependency_counter: q[21],
    };
    let d = bytes::rest(q, 22);
    let o = Object {
        mpu_sequence_number: mpu,
        rap,
        timed: true,
        header,
        item: false,
        item_id: 0,
        length: d.len() as u32,
    };
    records::put_row(rows, 0, id, false, o, 0);
    place::put_bytes(out, 0, d);
}

// The unit handed out, and what it leaves of the state.
fn commit_unit(
    session: &mut SessionMut<'_>,
    h: Header,
    p: &[u8],
    i: usize,
    x: PayloadHeader,
    rows: &mut [u8],
    out: &mut [u8],
)
    requires { WholeUnit (lent_mut session.old) h p.now rows.old out.old i x }
    ensures same_buffers { SameBuffers session.old session.new }
    ensures pushed { MediaPushed (lent_mut session.old) rows.old out.old (media_of h p.now) 0 1 (unit_bytes p.now) (lent_mut session.new) rows.new out.new }
{
    let state = &mut *session.state;
    give_unit(
        mpu::declared(p),
        x.mpu_sequence_number,
        h.packet_id,
        h.rap,
        rows,
        out,
    );
    store_plain(state, i, h.sequence);
}

// A clear payload of one whole timed unit. Of what is lent, the state is looked at.
#[tactic(auto, using(crate::proofs::PlainTests::data_there, crate::proofs::PlainTests::next_index, crate::proofs::PlainPushes::unit_left, crate::proofs::PlainPushes::whole_unit_lem, crate::proofs::PlainPushes::unit_told_lem))]
fn push_unit(
    session: &mut SessionMut<'_>,
    h: Header,
    p: &[u8],
    rows: &mut [u8],
    out: &mut [u8],
) -> Plain
    requires { CanPushUnit whole_unit (lent_mut session.old) h p.now }
    ensures same_buffers { SameBuffers session.old session.new }
    ensures pushed { UnitPushed (lent_mut session.old) h p.now rows.old out.old result (lent_mut session.new) rows.new out.new }
{
    if rows.len() < ROW_SIZE {
        return Plain::No;
    }
    let n = bytes::get_u16(p, 0) as usize - 20;
    if out.len() < n {
        return Plain::No;
    }
    let state = &mut *session.state;
    match next_place(state, h.packet_id, h.sequence, bytes::get_u32(p, 4)) {
        None => Plain::No,
        Some(i) => match unit_header(state, i, p) {
            None => Plain::No,
            Some(x) => {
                commit_unit(session, h, p, i, x, rows, out);
                Plain::Yes(n)
            }
        },
    }
}

// The header of an MMTP packet at 3 without counter and extension. Its FEC type is not looked at.
fn header_in(b: &[u8]) -> Header
    requires { 15 ≤ length b.now }
    ensures { result ≡ plain_header b.now }
{
    Header {
        fec_type: FecType::NotProtected,
        rap: b[3] % 2 == 1,
        payload_type: PayloadType::Mpu,
        packet_id: bytes::get_u16(b, 5),
        sequence: bytes::get_u32(b, 11),
        scramble_info: false,
        scramble_control: None,
    }
}

// A packet, question 5 answered yes.
#[tactic(auto, using(crate::proofs::PlainPushes::plain_left, crate::proofs::PlainPushes::long_packet, crate::proofs::PlainPushes::can_unit, crate::proofs::PlainPushes::plain_pushed))]
pub(crate) fn push_plain(
    session: &mut SessionMut<'_>,
    kind: u8,
    b: &[u8],
    rows: &mut [u8],
    out: &mut [u8],
) -> Plain
    requires { CanTryPlain (lent_mut session.old) }
    ensures same_buffers { SameBuffers session.old session.new }
    ensures pushed { PlainPushed (lent_mut session.old) (input kind b.now rows.old out.old) result (lent_mut session.new) rows.new out.new }
{
    if !is_mpu(kind, b) {
        return Plain::No;
    }
    if 65535 < b.len() {
        return Plain::No;
    }
    let p = bytes::rest(b, 15);
    let state = &mut *session.state;
    if !take::may_take(state) {
        return Plain::No;
    }
    place::octets(b);
    let h = header_in(b);
    if is_unit(p, WHOLE) {
        return push_unit(session, h, p, rows, out);
    }
    if is_unit(p, MIDDLE) {
        return push_part(session, h, p, rows, out);
    }
    Plain::No
}
