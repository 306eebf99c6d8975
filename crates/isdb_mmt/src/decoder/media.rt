// The place of a media packet id: the numbers last seen, the object that is held, its counts. The object's bytes lie in the
// place's area.
ghost use Rattle.std.specs.Prelude.{◌≡◌, ◌+◌, ◌*◌, ◌<◌, ◌≤◌, length};
ghost use Rattle.isdb_tlv.specs.Fields.{written, puts};
ghost use Rattle.isdb_mmt.specs.Memory.Lent.{over};
ghost use Rattle.isdb_mmt.specs.Memory.Layout.{most_media_ids, media_places, media_size, object_place, state_size};
ghost use Rattle.isdb_mmt.specs.Memory.Session.{number_fields, held_object_at, object_fields, media_place_of, media_fields, media_at};

use crate::decoder::counts;
use crate::decoder::counts::AssetStats;
use crate::decoder::layout::{HELD, MEDIA_PLACES, MEDIA_SIZE, OBJECT, OBJECT_LENGTH};
use crate::decoder::place::flag;
use crate::mpu::MfuHeader;
use isdb_tlv::bytes;

// What is known of a held object beside its bytes: fields of its first unit, 0 where absent, and its length so far.
// Flags beside their numbers and no Option: so they stand in the lent state.
#[derive(Clone, Copy)]
pub(crate) struct Object {
    pub mpu_sequence_number: u32,
    pub rap: bool,
    // Whether it has an MFU header, and whether an item id.
    pub timed: bool,
    pub header: MfuHeader,
    pub item: bool,
    pub item_id: u32,
    pub length: u32,
}

// Flags beside their numbers and no Option: so they stand in the lent state.
#[derive(Clone, Copy)]
pub(crate) struct Media {
    pub packet_id: u32,
    // The last packet's number, where there was one.
    pub seen: bool,
    pub sequence: u32,
    // The last and the first MPU number, where there was one.
    pub mpu_seen: bool,
    pub mpu: u32,
    pub first_mpu: u32,
    pub held: bool,
    pub object: Object,
    pub stats: AssetStats,
}

#[tactic(auto, unfolding(crate::specs::Memory::Session::held_object_at))]
fn object_of(p: &[u8]) -> Object
    ensures { result ≡ held_object_at p.now }
{
    Object {
        mpu_sequence_number: bytes::get_u32(p, OBJECT),
        rap: flag(p, OBJECT + 4),
        timed: flag(p, OBJECT + 5),
        header: MfuHeader {
            movie_fragment_sequence_number: bytes::get_u32(p, OBJECT + 6),
            sample_number: bytes::get_u32(p, OBJECT + 10),
            offset: bytes::get_u32(p, OBJECT + 14),
            priority: bytes::get_u8(p, OBJECT + 18),
            dependency_counter: bytes::get_u8(p, OBJECT + 19),
        },
        item: flag(p, OBJECT + 20),
        item_id: bytes::get_u32(p, OBJECT + 21),
        length: bytes::get_u32(p, OBJECT_LENGTH),
    }
}

#[tactic(auto, unfolding(crate::specs::Memory::Session::media_place_of))]
fn media_of(p: &[u8]) -> Media
    ensures { result ≡ media_place_of p.now }
{
    Media {
        packet_id: bytes::get_u32(p, 0),
        seen: flag(p, 4),
        sequence: bytes::get_u32(p, 5),
        mpu_seen: flag(p, 9),
        mpu: bytes::get_u32(p, 10),
        first_mpu: bytes::get_u32(p, 14),
        held: flag(p, HELD),
        object: object_of(p),
        stats: counts::stats_of(p),
    }
}

// The media place with the index i.
pub(crate) fn load_media(s: &[u8], i: usize) -> Media
    requires { i < most_media_ids }
    ensures { result ≡ media_at s.now i }
{
    media_of(bytes::part(s, MEDIA_PLACES + MEDIA_SIZE * i, MEDIA_SIZE))
}

#[tactic(auto, using(crate::proofs::Lent::put_none))]
fn put_numbers(p: &mut [u8], m: Media)
    ensures { p.new ≡ puts 0 (number_fields m) p.old }
{
    bytes::put4(
        p,
        0,
        0x4141,
        m.packet_id as u64,
        m.seen as u64,
        m.sequence as u64,
        m.mpu_seen as u64,
    );
    bytes::put4(
        p,
        10,
        0x4410,
        m.mpu as u64,
        m.first_mpu as u64,
        m.held as u64,
        0,
    );
}

#[tactic(auto, using(isdb_tlv::proofs::Numbers::length_put_be, crate::proofs::Lent::put_none))]
fn put_object(p: &mut [u8], o: Object)
    ensures { p.new ≡ puts object_place (object_fields o) p.old }
{
    let h = o.header;
    let sequence = h.movie_fragment_sequence_number as u64;
    bytes::put4(
        p,
        OBJECT,
        0x4114,
        o.mpu_sequence_number as u64,
        o.rap as u64,
        o.timed as u64,
        sequence,
    );
    bytes::put4(
        p,
        OBJECT + 10,
        0x4411,
        h.sample_number as u64,
        h.offset as u64,
        h.priority as u64,
        h.dependency_counter as u64,
    );
    bytes::put4(
        p,
        OBJECT + 20,
        0x1440,
        o.item as u64,
        o.item_id as u64,
        o.length as u64,
        0,
    );
}

fn put_media(p: &mut [u8], m: Media)
    requires { media_size ≤ length p.old }
    ensures { p.new ≡ over 0 (written (media_fields m)) p.old }
{
    put_numbers(p, m);
    put_object(p, m.object);
    counts::put_stats(p, m.stats);
}

// To the end of the state: of a part whose length the compiler knows it would store each field byte by byte.
pub(crate) fn store_media(s: &mut [u8], i: usize, m: Media)
    requires { (i < most_media_ids) × (state_size ≤ length s.old) }
    ensures { s.new ≡ over (media_places + media_size * i) (written (media_fields m)) s.old }
{
    let at = MEDIA_PLACES + MEDIA_SIZE * i;
    let end = s.len();
    put_media(&mut s[at..end], m);
}
