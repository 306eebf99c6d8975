// MMT-SI descriptors (ARIB STD-B60, 7.4, Table 4-10): a tag of 16 bits, a length whose width goes by the tag, and a body.
// Those that a receiver needs to list services, events and assets are decoded; any other is kept as it stands.
// Translated from desc.rs of isdb-rs (Apache-2.0, see NOTICE) and changed.
ghost use Rattle.std.specs.Prelude.{◌≡◌};
ghost use Rattle.isdb_mmt.specs.Formats.Desc.{length_width_of, step_at, counted, split_of, other, location_in, access_control, scrambler, stream_identifier, service_text, short_event_of, hevc, extended_timestamp, descriptor_of, is_other_of, first_of, service_at, genre_at};

use crate::location::Location;
use crate::part::Part;
use crate::timestamp::Extended;
use crate::{descriptor_walk, part, timestamp};
use isdb_tlv::bytes;

pub mod tag;

// The width in bytes of the length field that follows a tag.
#[tactic(auto, unfolding(crate::specs::Formats::Desc::length_width_of))]
pub fn length_width(tag: u16) -> usize
    ensures { result ≡ length_width_of tag }
{
    match tag {
        tag::DEPENDENCY => 2,
        0x4000..=0x6FFF => 2,
        0x7000..=0x7FFF => 4,
        0xF000..=0xFFFF => 2,
        _ => 1,
    }
}

// What stands at a place of a descriptor loop: a descriptor, the end, or one that does not fit.
// Three cases, two of which end the walk: an Option of a Result names none of them.
#[derive(Clone, Copy)]
pub enum Step {
    End,
    Broken(usize),
    Raw { tag: u16, body: Part, next: usize },
}

// The loop's descriptors, by a cursor that starts at 0.
#[tactic(auto, using(crate::proofs::Descriptors::width_le, crate::proofs::Descriptors::length_is), unfolding(crate::specs::Formats::Desc::step_at))]
pub fn next(b: &[u8], at: usize) -> Step
    ensures { result ≡ step_at b.now at }
{
    if b.len() <= at {
        return Step::End;
    }
    if b.len() - at < 2 {
        return Step::Broken(at);
    }
    let tag = bytes::get_u16(b, at);
    let w = length_width(tag);
    let l = at + 2;
    if b.len() - l < w {
        return Step::Broken(at);
    }
    let start = l + w;
    let length = bytes::number(b, l, w as u8) as usize;
    if b.len() - start < length {
        return Step::Broken(at);
    }
    Step::Raw {
        tag,
        body: Part { start, length },
        next: start + length,
    }
}

// How many descriptors a loop has, and whether one that does not fit ended them.
#[derive(Clone, Copy)]
pub struct Counted {
    pub count: usize,
    pub broken: bool,
}

#[tactic(auto, using(crate::proofs::Descriptors::raw_lies, crate::proofs::Descriptors::plus_zero, crate::proofs::Descriptors::count_last, crate::proofs::Descriptors::count_broken, crate::proofs::Descriptors::count_on), unfolding(crate::specs::Formats::Desc::split_of))]
pub fn decode_all(b: &[u8]) -> Counted
    ensures { result ≡ counted (split_of b.now) }
{
    let mut walk = descriptor_walk::new(b);
    let mut count: usize = 0;
    // Not by for: what stands where the walk ended is looked at behind the loop.
    while let Some(_) = walk.next() {
        count += 1;
    }
    Counted {
        count,
        broken: matches!(descriptor_walk::step(walk), Step::Broken(_)),
    }
}

// An ISO 639 language code.
#[derive(Clone, Copy, Debug, PartialEq, Eq)]
pub struct Language {
    pub first: u8,
    pub second: u8,
    pub third: u8,
}

// A descriptor that was decoded. Texts are parts of its body; lists are walked (next_timestamp, next_mpu, next_service,
// next_genre).
#[derive(Clone, Copy)]
pub enum Descriptor {
    // 0001h: presentation times of MPUs.
    MpuTimestamp,
    // 8026h: decoding and presentation times of access units.
    ExtendedTimestamp(Extended),
    // 8004h: CA system, and where its ECM or EMM travels. A URL's place counts from byte 2 of the body.
    AccessControl {
        ca_system_id: u16,
        location: Option<Location>,
    },
    // 8005h: what is scrambled, and by which system.
    Scrambler {
        layer_type: u8,
        system_id: u8,
    },
    // 8011h.
    StreamIdentifier {
        component_tag: u16,
    },
    // 8019h.
    Service {
        service_type: u8,
        provider: Part,
        name: Part,
    },
    // 800Dh.
    ServiceList,
    // F001h.
    ShortEvent {
        language: Language,
        name: Part,
        text: Part,
    },
    // 8012h.
    Content,
    // 800Ah: the fields that name the stream.
    Hevc {
        profile_idc: u8,
        tier: bool,
        level_idc: u8,
    },
    // 8018h.
    BroadcasterName(Part),
    // Any other, and one whose body is too short for its structure.
    Other {
        tag: u16,
        body: Part,
    },
}

fn kept(tag: u16, b: &[u8]) -> Descriptor
    ensures { result ≡ other tag b.now }
{
    Descriptor::Other {
        tag,
        body: Part {
            start: 0,
            length: b.len(),
        },
    }
}

fn maybe_location(l: Option<(Location, usize)>) -> Option<Location>
    ensures { result ≡ location_in l }
{
    let (location, _) = l?;
    Some(location)
}

#[tactic(auto, unfolding(crate::specs::Formats::Desc::access_control))]
fn access_control(b: &[u8]) -> Descriptor
    ensures { result ≡ access_control b.now }
{
    if b.len() < 2 {
        return kept(tag::ACCESS_CONTROL, b);
    }
    Descriptor::AccessControl {
        ca_system_id: bytes::get_u16(b, 0),
        location: maybe_location(Location::parse(bytes::rest(b, 2))),
    }
}

#[tactic(auto, using(isdb_tlv::proofs::Fields::be_one), unfolding(crate::specs::Formats::Desc::scrambler))]
fn scrambler_of(b: &[u8]) -> Descriptor
    ensures { result ≡ scrambler b.now }
{
    if b.len() < 2 {
        return kept(tag::SCRAMBLER, b);
    }
    Descriptor::Scrambler {
        layer_type: bytes::get_u8(b, 0) / 64,
        system_id: bytes::get_u8(b, 1),
    }
}

#[tactic(auto, unfolding(crate::specs::Formats::Desc::stream_identifier))]
fn stream_identifier(b: &[u8]) -> Descriptor
    ensures { result ≡ stream_identifier b.now }
{
    if b.len() < 2 {
        return kept(tag::STREAM_IDENTIFIER, b);
    }
    Descriptor::StreamIdentifier {
        component_tag: bytes::get_u16(b, 0),
    }
}

#[tactic(auto, using(isdb_tlv::proofs::Fields::be_one), unfolding(crate::specs::Formats::Desc::service_text))]
fn service_of(b: &[u8]) -> Descriptor
    ensures { result ≡ service_text b.now }
{
    if b.len() < 2 {
        return kept(tag::SERVICE, b);
    }
    let p = bytes::get_u8(b, 1) as usize;
    let start = p + 3;
    if b.len() < start {
        return kept(tag::SERVICE, b);
    }
    let n = bytes::get_u8(b, p + 2) as usize;
    if b.len() < start + n {
        return kept(tag::SERVICE, b);
    }
    Descriptor::Service {
        service_type: bytes::get_u8(b, 0),
        provider: Part {
            start: 2,
            length: p,
        },
        name: Part { start, length: n },
    }
}

#[tactic(auto, using(isdb_tlv::proofs::Fields::be_one), unfolding(crate::specs::Formats::Desc::short_event_of))]
fn short_event(b: &[u8]) -> Descriptor
    ensures { result ≡ short_event_of b.now }
{
    if b.len() < 4 {
        return kept(tag::SHORT_EVENT, b);
    }
    let n = bytes::get_u8(b, 3) as usize;
    let start = n + 6;
    if b.len() < start {
        return kept(tag::SHORT_EVENT, b);
    }
    let t = bytes::get_u16(b, n + 4) as usize;
    if b.len() < start + t {
        return kept(tag::SHORT_EVENT, b);
    }
    Descriptor::ShortEvent {
        language: Language {
            first: bytes::get_u8(b, 0),
            second: bytes::get_u8(b, 1),
            third: bytes::get_u8(b, 2),
        },
        name: Part {
            start: 4,
            length: n,
        },
        text: Part { start, length: t },
    }
}

#[tactic(auto, using(isdb_tlv::proofs::Fields::be_one), unfolding(crate::specs::Formats::Desc::hevc))]
fn hevc_of(b: &[u8]) -> Descriptor
    ensures { result ≡ hevc b.now }
{
    if b.len() < 12 {
        return kept(tag::HEVC, b);
    }
    let profile = bytes::get_u8(b, 0);
    Descriptor::Hevc {
        profile_idc: profile % 32,
        tier: profile / 32 % 2 == 1,
        level_idc: bytes::get_u8(b, 11),
    }
}

#[tactic(auto, unfolding(crate::specs::Formats::Desc::extended_timestamp))]
fn extended_timestamp(b: &[u8]) -> Descriptor
    ensures { result ≡ extended_timestamp b.now }
{
    match timestamp::parse_extended(b) {
        None => kept(tag::MPU_EXTENDED_TIMESTAMP, b),
        Some(e) => Descriptor::ExtendedTimestamp(e),
    }
}

impl Descriptor {
    // The descriptor of a tag and a body.
    #[tactic(auto, unfolding(crate::specs::Formats::Desc::descriptor_of))]
    pub fn decode(tag: u16, b: &[u8]) -> Descriptor
        ensures { result ≡ descriptor_of tag b.now }
    {
        match tag {
            tag::MPU_TIMESTAMP => Descriptor::MpuTimestamp,
            tag::MPU_EXTENDED_TIMESTAMP => extended_timestamp(b),
            tag::ACCESS_CONTROL => access_control(b),
            tag::SCRAMBLER => scrambler_of(b),
            tag::STREAM_IDENTIFIER => stream_identifier(b),
            tag::SERVICE => service_of(b),
            tag::SERVICE_LIST => Descriptor::ServiceList,
            tag::SHORT_EVENT => short_event(b),
            tag::CONTENT => Descriptor::Content,
            tag::HEVC => hevc_of(b),
            tag::BROADCASTER_NAME => Descriptor::BroadcasterName(Part {
                start: 0,
                length: b.len(),
            }),
            _ => kept(tag, b),
        }
    }

    // Whether it was kept as it stands.
    pub fn is_other(self) -> bool
        ensures { result ≡ is_other_of self }
    {
        matches!(self, Descriptor::Other { .. })
    }
}

#[tactic(auto, using(crate::proofs::Descriptors::raw_lies, crate::proofs::Descriptors::first_none, crate::proofs::Descriptors::first_other, crate::proofs::Descriptors::first_found, crate::proofs::Descriptors::first_kept))]
pub fn first_of(b: &[u8], tag: u16) -> Option<(Descriptor, Part)>
    ensures { result ≡ first_of tag b.now 0 }
{
    for (t, body) in descriptor_walk::new(b) {
        if t == tag {
            let d = Descriptor::decode(t, body.of(b));
            if !d.is_other() {
                return Some((d, body));
            }
        }
    }
    None
}

// An entry of a service list.
#[derive(Clone, Copy)]
pub struct ListedService {
    pub service_id: u16,
    pub service_type: u8,
}

// The entries of a service list's body, 3 bytes each, by a cursor that starts at 0.
#[tactic(auto, using(isdb_tlv::proofs::Fields::be_one), unfolding(crate::specs::Formats::Desc::service_at))]
pub fn next_service(b: &[u8], at: usize) -> Option<(ListedService, usize)>
    ensures { result ≡ service_at b.now at }
{
    if part::left(b, at) < 3 {
        return None;
    }
    let service = ListedService {
        service_id: bytes::get_u16(b, at),
        service_type: bytes::get_u8(b, at + 2),
    };
    Some((service, at + 3))
}

// A genre of a content descriptor: two levels and the broadcaster's own byte.
#[derive(Clone, Copy)]
pub struct Genre {
    pub level_1: u8,
    pub level_2: u8,
    pub user: u8,
}

// The genres of a content descriptor's body, 2 bytes each, by a cursor that starts at 0.
#[tactic(auto, using(isdb_tlv::proofs::Fields::be_one), unfolding(crate::specs::Formats::Desc::genre_at))]
pub fn next_genre(b: &[u8], at: usize) -> Option<(Genre, usize)>
    ensures { result ≡ genre_at b.now at }
{
    if part::left(b, at) < 2 {
        return None;
    }
    let levels = bytes::get_u8(b, at);
    let genre = Genre {
        level_1: levels / 16,
        level_2: levels % 16,
        user: bytes::get_u8(b, at + 1),
    };
    Some((genre, at + 2))
}
