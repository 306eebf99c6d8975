// MPT (ARIB STD-B60, Table 7-6): the assets of a package, with their locations.
// Translated from table.rs of isdb-rs (Apache-2.0, see NOTICE) and changed.
ghost use Rattle.std.specs.Prelude.{◌≡◌, ◌+◌, ◌≤◌, length, drop, None};
ghost use Rattle.isdb_mmt.specs.Formats.Location.{location_of};
ghost use Rattle.isdb_mmt.specs.Formats.Mpt.{declared_length_of, locations_end, asset_fields, asset_at_of, assets_told, mpt_parsed, mpt_assets, mpt_table, mpt_of, service_id_of, first_packet_id, locations_of, component_tag_of};

use crate::desc::{Descriptor, tag};
use crate::location::Location;
use crate::part::Part;
use crate::table::section;
use crate::{desc, part};
use isdb_tlv::bytes;

// How many bytes a table of an MPT's or a PLT's form declares, where they are there.
#[tactic(auto, unfolding(crate::specs::Formats::Mpt::declared_length_of))]
pub fn declared_length(b: &[u8]) -> Option<usize>
    ensures { result ≡ declared_length_of b.now }
{
    if b.len() < 4 {
        return None;
    }
    let n = bytes::get_u16(b, 2) as usize + 4;
    if b.len() < n {
        return None;
    }
    Some(n)
}

#[derive(Clone, Copy)]
pub struct Asset {
    pub identifier_type: u8,
    pub asset_id_scheme: u32,
    pub asset_id: Part,
    // Four characters, as a number.
    pub asset_type: u32,
    pub clock_relation: bool,
    // How many locations there are, and where the first stands.
    pub locations: u8,
    pub locations_start: usize,
    pub descriptors: Part,
}

// The location at a place: the next one stands behind the bytes it took.
pub fn location_at(t: &[u8], at: usize) -> Option<(Location, usize)>
    ensures { result ≡ location_of (drop at t.now) }
{
    Location::parse(bytes::rest(t, at))
}

// Behind n locations, the first of which stands at a place.
#[tactic(auto, using(crate::proofs::Assets::location_within, crate::proofs::Assets::end_on))]
fn locations_end(t: &[u8], n: u8, from: usize) -> Option<usize>
    ensures { result ≡ locations_end n t.now from }
{
    let mut at = from;
    for _ in 0..n {
        let (_, taken) = location_at(t, at)?;
        at += taken;
    }
    Some(at)
}

// The asset at p whose type stands at q and whose descriptors' length stands at end.
#[tactic(auto, using(crate::proofs::Fields::first_field, crate::proofs::Fields::field, crate::proofs::Fields::byte_field, isdb_tlv::proofs::Fields::be_one), unfolding(crate::specs::Formats::Mpt::asset_fields))]
fn asset_fields(t: &[u8], p: usize, q: usize, end: usize) -> Option<(Asset, usize)>
    requires { (p ≤ length t.now) × (q ≤ length t.now) × (end ≤ length t.now) }
    ensures { result ≡ asset_fields t.now p q end }
{
    if t.len() - end < 2 {
        return None;
    }
    let start = end + 2;
    let length = bytes::get_u16(t, end) as usize;
    if t.len() - start < length {
        return None;
    }
    let head = bytes::rest(t, p);
    let tail = bytes::rest(t, q);
    Some((
        Asset {
            identifier_type: bytes::get_u8(head, 0),
            asset_id_scheme: bytes::get_u32(head, 1),
            asset_id: Part {
                start: p + 6,
                length: bytes::get_u8(head, 5) as usize,
            },
            asset_type: bytes::get_u32(tail, 0),
            clock_relation: bytes::get_u8(tail, 4) % 2 == 1,
            locations: bytes::get_u8(tail, 5),
            locations_start: q + 6,
            descriptors: Part { start, length },
        },
        start + length,
    ))
}

// The asset at a place of a table. The first stands where mpt.start says; there are as many as mpt.assets.
#[tactic(auto, using(crate::proofs::Assets::end_within, isdb_tlv::proofs::Fields::be_one), unfolding(crate::specs::Formats::Mpt::asset_at_of))]
pub fn asset_at(t: &[u8], at: usize) -> Option<(Asset, usize)>
    ensures { result ≡ asset_at_of t.now at }
{
    if part::left(t, at) < 6 {
        return None;
    }
    let q = at + 6 + bytes::get_u8(t, at + 5) as usize;
    if t.len() < q {
        return None;
    }
    if t.len() - q < 6 {
        return None;
    }
    let end = locations_end(t, bytes::get_u8(t, q + 5), q + 6)?;
    asset_fields(t, at, q, end)
}

// Whether n assets are whole, and how many of their descriptor loops break up to where one is not.
#[derive(Clone, Copy)]
pub struct AssetLoop {
    pub whole: bool,
    pub breaks: usize,
}

#[tactic(auto, using(crate::proofs::Entries::broken_le, crate::proofs::Assets::plus_zero, crate::proofs::Assets::loop_end, crate::proofs::Assets::loop_on, crate::proofs::Assets::loop_done), unfolding(crate::specs::Formats::Mpt::assets_told))]
fn read_loop(t: &[u8], n: u8, from: usize) -> AssetLoop
    ensures { result ≡ assets_told n t.now from }
{
    let mut at = from;
    let mut breaks: usize = 0;
    for _ in 0..n {
        let Some((a, next)) = asset_at(t, at) else {
            return AssetLoop {
                whole: false,
                breaks,
            };
        };
        breaks += section::broken(a.descriptors.of(t));
        at = next;
    }
    AssetLoop {
        whole: true,
        breaks,
    }
}

#[derive(Clone, Copy)]
pub struct Mpt {
    // 20h, or 11h to 1Fh for a subset.
    pub table_id: u8,
    pub version: u8,
    pub mode: u8,
    pub package_id: Part,
    pub descriptors: Part,
    // How many assets there are, and where the first stands.
    pub assets: u8,
    pub start: usize,
}

// What a table gives, and how many descriptor loops broke on the way. Not section::Parsed: why a table is not read has no name.
#[derive(Clone, Copy)]
pub struct MptParsed {
    pub mpt: Option<Mpt>,
    pub breaks: usize,
}

fn no_table(breaks: usize) -> MptParsed
    ensures { result ≡ mpt_parsed None breaks }
{
    MptParsed { mpt: None, breaks }
}

// From the descriptors on, which stand at start and are n bytes long.
#[tactic(auto, using(crate::proofs::Entries::broken_le, crate::proofs::Assets::whole_told, crate::proofs::Assets::breaks_told, crate::proofs::Assets::breaks_le, isdb_tlv::proofs::Fields::be_one), unfolding(crate::specs::Formats::Mpt::mpt_assets))]
fn read_assets(t: &[u8], start: usize, n: usize) -> MptParsed
    requires { start + n ≤ length t.now }
    ensures { result ≡ mpt_assets t.now start n }
{
    let end = start + n;
    let own = section::broken(bytes::part(t, start, n));
    if t.len() - end < 1 {
        return no_table(own);
    }
    let count = bytes::get_u8(t, end);
    let l = read_loop(t, count, end + 1);
    let breaks = own + l.breaks;
    if !l.whole {
        return no_table(breaks);
    }
    MptParsed {
        mpt: Some(Mpt {
            table_id: bytes::get_u8(t, 0),
            version: bytes::get_u8(t, 1),
            mode: bytes::get_u8(t, 4) % 4,
            package_id: Part {
                start: 6,
                length: bytes::get_u8(t, 5) as usize,
            },
            descriptors: Part { start, length: n },
            assets: count,
            start: end + 1,
        }),
        breaks,
    }
}

// A table cut to its declared bytes.
#[tactic(auto, using(isdb_tlv::proofs::Fields::be_one), unfolding(crate::specs::Formats::Mpt::mpt_table))]
fn read(t: &[u8]) -> MptParsed
    ensures { result ≡ mpt_table t.now }
{
    if t.len() < 6 {
        return no_table(0);
    }
    let start = bytes::get_u8(t, 5) as usize + 8;
    if t.len() < start {
        return no_table(0);
    }
    let length = bytes::get_u16(t, start - 2) as usize;
    if t.len() - start < length {
        return no_table(0);
    }
    read_assets(t, start, length)
}

// A table, its table id first. Bytes behind the declared ones are not looked at.
#[tactic(auto, unfolding(crate::specs::Formats::Mpt::mpt_of))]
pub fn parse(b: &[u8]) -> MptParsed
    ensures { result ≡ mpt_of b.now }
{
    match declared_length(b) {
        None => no_table(0),
        Some(n) => read(bytes::part(b, 0, n)),
    }
}

impl Mpt {
    // The low 16 bits of the package id, of the table t.
    #[tactic(auto, using(isdb_tlv::proofs::Numbers::be_drop), unfolding(crate::specs::Formats::Mpt::service_id_of))]
    pub fn service_id(self, t: &[u8]) -> Option<u16>
        ensures { result ≡ service_id_of t.now self.package_id }
    {
        let id = self.package_id;
        let length = id.length;
        if length < 2 {
            return None;
        }
        Some(bytes::get_u16(bytes::rest(id.of(t), length - 2), 0))
    }
}

impl Asset {
    // The MMTP packet id of its first location that has one, of the table t.
    #[tactic(auto, using(crate::proofs::Assets::location_within, crate::proofs::Assets::first_some, crate::proofs::Assets::first_on))]
    pub fn packet_id(self, t: &[u8]) -> Option<u16>
        ensures { result ≡ first_packet_id (locations_of self.locations t.now self.locations_start) }
    {
        let mut at = self.locations_start;
        for _ in 0..self.locations {
            let (l, taken) = location_at(t, at)?;
            if let Some(p) = l.packet_id() {
                return Some(p);
            }
            at += taken;
        }
        None
    }
}

// The component tag that a descriptor loop tells, by its first stream identifier descriptor.
#[tactic(auto, unfolding(crate::specs::Formats::Mpt::component_tag_of))]
pub fn component_tag(descriptors: &[u8]) -> Option<u16>
    ensures { result ≡ component_tag_of descriptors.now }
{
    let (d, _) = desc::first_of(descriptors, tag::STREAM_IDENTIFIER)?;
    match d {
        Descriptor::StreamIdentifier { component_tag } => Some(component_tag),
        _ => None,
    }
}
