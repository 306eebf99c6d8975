// The MPU timestamp and the MPU extended timestamp descriptor (ARIB STD-B60, 7.4.3.5 and 7.4.3.35).
// Translated from desc.rs of isdb-rs (Apache-2.0, see NOTICE) and changed.
ghost use Rattle.std.specs.Prelude.{◌≡◌};
ghost use Rattle.isdb_mmt.specs.Formats.Timestamp.{timestamp_at, scale_end, head_end, timescale_of, default_offset, unit_size_of, mpu_at, mpus_whole, extended_of, unit_at, unit_step};

use crate::part;
use crate::part::Part;
use crate::walk_step::WalkStep;
use isdb_tlv::bytes;

// An entry of an MPU timestamp descriptor: the presentation time of an MPU's first access unit, an NTP timestamp.
#[derive(Clone, Copy)]
pub struct MpuPresentation {
    pub mpu_sequence_number: u32,
    pub presentation_time: u64,
}

// The entries, 12 bytes each, by a cursor that starts at 0.
#[tactic(auto, unfolding(crate::specs::Formats::Timestamp::timestamp_at))]
pub fn next_timestamp(b: &[u8], at: usize) -> Option<(MpuPresentation, usize)>
    ensures { result ≡ timestamp_at b.now at }
{
    if part::left(b, at) < 12 {
        return None;
    }
    let presentation = MpuPresentation {
        mpu_sequence_number: bytes::get_u32(b, at),
        presentation_time: bytes::get_u64(b, at + 4),
    };
    Some((presentation, at + 12))
}

// The head of an extended timestamp descriptor; its MPUs stand from start on.
#[derive(Clone, Copy)]
pub struct Extended {
    // Time units per second, where given.
    pub timescale: Option<u32>,
    // The PTS offset of every access unit, where there is one for all (pts_offset_type 1).
    pub default_pts_offset: Option<u16>,
    // Each access unit has a PTS offset of its own (pts_offset_type 2).
    pub own_pts_offset: bool,
    pub start: usize,
}

// One MPU; units are the bytes of its access units.
#[derive(Clone, Copy, Debug, PartialEq, Eq)]
pub struct ExtendedMpu {
    pub mpu_sequence_number: u32,
    pub leap_indicator: u8,
    pub decoding_time_offset: u16,
    pub access_units: u8,
    pub units: Part,
}

fn unit_size(own: bool) -> usize
    ensures { result ≡ unit_size_of own }
{
    if own { 4 } else { 2 }
}

// The MPUs of a descriptor's body, by a cursor that starts at the head's start; own is the head's own_pts_offset.
#[tactic(auto, using(crate::proofs::Timestamps::units_le, crate::proofs::Fields::first_field, crate::proofs::Fields::field, crate::proofs::Fields::byte_field), unfolding(crate::specs::Formats::Timestamp::mpu_at))]
pub fn next_mpu(b: &[u8], own: bool, at: usize) -> WalkStep<ExtendedMpu>
    ensures { result ≡ mpu_at b.now own at }
{
    if b.len() <= at {
        return WalkStep::End;
    }
    if b.len() - at < 8 {
        return WalkStep::Malformed;
    }
    let m = bytes::rest(b, at);
    let access_units = bytes::get_u8(m, 7);
    let start = at + 8;
    let n = access_units as usize * unit_size(own);
    if b.len() - start < n {
        return WalkStep::Malformed;
    }
    WalkStep::Entry(
        ExtendedMpu {
            mpu_sequence_number: bytes::get_u32(m, 0),
            leap_indicator: bytes::get_u8(m, 4) / 64,
            decoding_time_offset: bytes::get_u16(m, 5),
            access_units,
            units: Part { start, length: n },
        },
        start + n,
    )
}

// Whether MPUs stand from a place to the very end.
#[tactic(auto, using(crate::proofs::Timestamps::mpu_lies, crate::proofs::Timestamps::whole_end, crate::proofs::Timestamps::whole_broken, crate::proofs::Timestamps::whole_on_lem))]
fn mpus_whole(b: &[u8], own: bool, from: usize) -> bool
    ensures { result ≡ mpus_whole b.now own from }
{
    let mut at = from;
    // No iterator: a step has three answers, and the two that end the loop differ.
    loop {
        match next_mpu(b, own, at) {
            WalkStep::End => return true,
            WalkStep::Malformed => return false,
            WalkStep::Entry(_, next) => at = next,
        }
    }
}

// Where the timescale ends, and the default PTS offset behind it.
fn scale_end(flags: u8) -> usize
    ensures { result ≡ scale_end flags }
{
    if flags % 2 == 0 { 1 } else { 5 }
}

fn head_end(flags: u8) -> usize
    ensures { result ≡ head_end flags }
{
    if flags / 2 % 4 == 1 {
        scale_end(flags) + 2
    } else {
        scale_end(flags)
    }
}

fn timescale_of(b: &[u8], flags: u8) -> Option<u32>
    ensures { result ≡ timescale_of b.now flags }
{
    if flags % 2 == 0 {
        None
    } else {
        Some(bytes::get_u32(b, 1))
    }
}

fn default_offset(b: &[u8], flags: u8) -> Option<u16>
    ensures { result ≡ default_offset b.now flags }
{
    if flags / 2 % 4 == 1 {
        Some(bytes::get_u16(b, scale_end(flags)))
    } else {
        None
    }
}

// A whole extended timestamp descriptor, or none where its body does not fit its structure.
#[tactic(auto, using(isdb_tlv::proofs::Fields::be_one), unfolding(crate::specs::Formats::Timestamp::extended_of))]
pub fn parse_extended(b: &[u8]) -> Option<Extended>
    ensures { result ≡ extended_of b.now }
{
    if b.len() < 1 {
        return None;
    }
    let flags = bytes::get_u8(b, 0);
    let start = head_end(flags);
    if b.len() < start {
        return None;
    }
    let own_pts_offset = flags / 2 % 4 == 2;
    if !mpus_whole(b, own_pts_offset, start) {
        return None;
    }
    Some(Extended {
        timescale: timescale_of(b, flags),
        default_pts_offset: default_offset(b, flags),
        own_pts_offset,
        start,
    })
}

// An access unit, in decoding order.
#[derive(Clone, Copy)]
pub struct AccessUnit {
    pub dts_pts_offset: u16,
    // Its own, or the default where there is one.
    pub pts_offset: Option<u16>,
}

#[tactic(auto, using(isdb_tlv::proofs::Numbers::be_drop))]
fn access_unit(units: &[u8], e: Extended, at: usize) -> AccessUnit
    ensures { result ≡ unit_at units.now e at }
{
    if e.own_pts_offset {
        return AccessUnit {
            dts_pts_offset: bytes::get_u16(units, at),
            pts_offset: Some(bytes::get_u16(bytes::rest(units, at), 2)),
        };
    }
    AccessUnit {
        dts_pts_offset: bytes::get_u16(units, at),
        pts_offset: e.default_pts_offset,
    }
}

// The access units of an MPU whose units these are, by a cursor that starts at 0; e is the descriptor's head.
#[tactic(auto, unfolding(crate::specs::Formats::Timestamp::unit_step))]
pub fn next_access_unit(units: &[u8], e: Extended, at: usize) -> Option<(AccessUnit, usize)>
    ensures { result ≡ unit_step units.now e at }
{
    let size = unit_size(e.own_pts_offset);
    if part::left(units, at) < size {
        return None;
    }
    Some((access_unit(units, e, at), at + size))
}
