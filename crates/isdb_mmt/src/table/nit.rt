// TLV-NIT (ARIB STD-B60, Table 5-1): the TLV streams of a network, with TLV-SI descriptors (5.3), which have a tag and a
// length of 8 bits each.
// Translated from table.rs of isdb-rs (Apache-2.0, see NOTICE) and changed.
ghost use Rattle.std.specs.Prelude.{◌≡◌, ◌≤◌, Err};
ghost use Rattle.isdb_mmt.specs.Formats.Nit.{nit_body, nit_of, stream_of, stream_step, tlv_step_at, digit, bcd_from, frequency_of, whole_body, network_name_of, service_list_of};

use crate::part;
use crate::part::Part;
use crate::table::section;
use crate::table::section::{Entry, SectionError, SectionHeader};
use crate::walk_step::WalkStep;
use isdb_tlv::bytes;

// The parts of a section's body: the network's descriptors, the loop of streams, and how many they are.
#[derive(Clone, Copy)]
pub struct Nit {
    pub descriptors: Part,
    pub loop_part: Part,
    pub streams: usize,
}

fn malformed() -> Result<(SectionHeader, Nit), SectionError>
    ensures { result ≡ Err SectionError.Malformed }
{
    Err(SectionError::Malformed)
}

// The body of a section whose header has been read.
#[tactic(auto, using(crate::proofs::Entries::whole_told, crate::proofs::Entries::count_told), unfolding(crate::specs::Formats::Nit::nit_body))]
pub fn read(header: SectionHeader, body: &[u8]) -> Result<(SectionHeader, Nit), SectionError>
    ensures { result ≡ nit_body header body.now }
{
    if body.len() < 2 {
        return malformed();
    }
    let n = bytes::get_u12(body, 0) as usize;
    let start = n + 4;
    if body.len() < start {
        return malformed();
    }
    let length = bytes::get_u12(body, n + 2) as usize;
    if body.len() - start < length {
        return malformed();
    }
    let l = section::read_entries(bytes::part(body, start, length), 4, 0);
    if !l.whole {
        return malformed();
    }
    Ok((
        header,
        Nit {
            descriptors: Part {
                start: 2,
                length: n,
            },
            loop_part: Part { start, length },
            streams: l.count,
        },
    ))
}

// A whole section. Its descriptor loops do not count as broken.
#[tactic(auto, unfolding(crate::specs::Formats::Nit::nit_of))]
pub fn parse(b: &[u8]) -> Result<(SectionHeader, Nit), SectionError>
    ensures { result ≡ nit_of b.now }
{
    let header = section::long_section(b)?;
    read(header, header.body.of(b))
}

#[derive(Clone, Copy)]
pub struct NitStream {
    pub tlv_stream_id: u16,
    pub original_network_id: u16,
    pub descriptors: Part,
}

#[tactic(auto, using(isdb_tlv::proofs::Numbers::be_drop))]
fn stream_of(streams: &[u8], e: Entry) -> NitStream
    ensures { result ≡ stream_of streams.now e }
{
    let b = bytes::rest(streams, e.at);
    NitStream {
        tlv_stream_id: bytes::get_u16(b, 0),
        original_network_id: bytes::get_u16(b, 2),
        descriptors: e.descriptors,
    }
}

// The streams of the loop of streams, by a cursor that starts at 0.
#[tactic(auto, unfolding(crate::specs::Formats::Nit::stream_step))]
pub fn next_stream(streams: &[u8], at: usize) -> WalkStep<NitStream>
    ensures { result ≡ stream_step streams.now at }
{
    match section::next_entry(streams, 4, at) {
        WalkStep::End => WalkStep::End,
        WalkStep::Malformed => WalkStep::Malformed,
        WalkStep::Entry(e, next) => WalkStep::Entry(stream_of(streams, e), next),
    }
}

// A TLV-SI descriptor.
#[derive(Clone, Copy)]
pub struct TlvDescriptor {
    pub tag: u8,
    pub body: Part,
}

// The descriptors of a TLV-SI loop, by a cursor that starts at 0. The loop ends where one does not fit.
#[tactic(auto, using(isdb_tlv::proofs::Fields::be_one), unfolding(crate::specs::Formats::Nit::tlv_step_at))]
pub fn next_tlv(b: &[u8], at: usize) -> Option<(TlvDescriptor, usize)>
    ensures { result ≡ tlv_step_at b.now at }
{
    if part::left(b, at) < 2 {
        return None;
    }
    let start = at + 2;
    let length = bytes::get_u8(b, at + 1) as usize;
    if b.len() - start < length {
        return None;
    }
    let descriptor = TlvDescriptor {
        tag: bytes::get_u8(b, at),
        body: Part { start, length },
    };
    Some((descriptor, start + length))
}

// The BCD digit i, two a byte.
#[tactic(auto, using(isdb_tlv::proofs::Fields::be_one))]
fn digit_at(b: &[u8], i: u8) -> u8
    ensures { result ≡ digit b.now i }
{
    let x = bytes::get_u8(b, (i / 2) as usize);
    if i % 2 == 0 { x / 16 } else { x % 16 }
}

// The number of n BCD digits, high digit first, or none where one is above 9.
#[tactic(auto, using(crate::proofs::Nits::bcd_lt, crate::proofs::Nits::bcd_none))]
fn bcd(b: &[u8], n: u8) -> Option<u64>
    requires { n ≤ 8 }
    ensures { result ≡ bcd_from n b.now }
{
    let mut v: u64 = 0;
    for i in 0..n {
        let d = digit_at(b, i);
        if 9 < d {
            return None;
        }
        v = v * 10 + u64::from(d);
    }
    Some(v)
}

// TLV-SI descriptor tags (Table 4-4).
pub const NETWORK_NAME: u8 = 0x40;

pub const SERVICE_LIST: u8 = 0x41;

pub const SATELLITE_DELIVERY: u8 = 0x43;

// The frequency in kHz of a satellite delivery system descriptor: eight BCD digits, in 10 kHz.
#[tactic(auto, unfolding(crate::specs::Formats::Nit::frequency_of))]
pub fn satellite_frequency_khz(tag: u8, b: &[u8]) -> Option<u64>
    ensures { result ≡ frequency_of tag b.now }
{
    if tag != SATELLITE_DELIVERY {
        return None;
    }
    if b.len() < 4 {
        return None;
    }
    let v = bcd(b, 8)?;
    Some(v * 10)
}

// The whole body of a descriptor, where its tag is the wanted one.
#[tactic(auto, unfolding(crate::specs::Formats::Nit::whole_body))]
fn whole_body(wanted: u8, tag: u8, b: &[u8]) -> Option<Part>
    ensures { result ≡ whole_body wanted tag b.now }
{
    if tag != wanted {
        return None;
    }
    Some(Part {
        start: 0,
        length: b.len(),
    })
}

// The text of a network name descriptor.
pub fn network_name(tag: u8, b: &[u8]) -> Option<Part>
    ensures { result ≡ network_name_of tag b.now }
{
    whole_body(NETWORK_NAME, tag, b)
}

// The entries of a service list descriptor, which desc::next_service walks.
pub fn service_list(tag: u8, b: &[u8]) -> Option<Part>
    ensures { result ≡ service_list_of tag b.now }
{
    whole_body(SERVICE_LIST, tag, b)
}
