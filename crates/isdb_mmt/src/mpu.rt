// MPU payloads (ARIB STD-B60, 6.3.2, Table 6-1): the payload header and the units, and what follows from a packet's and an
// MPU's sequence number.
// Translated from mpu.rs of isdb-rs (Apache-2.0, see NOTICE) and changed.
ghost use Rattle.std.specs.Prelude.{◌≡◌, ◌≤◌, false, length, is_some};
ghost use Rattle.isdb_tlv.specs.Guards.{◌≤?◌};
ghost use Rattle.std.specs.Prelude.{if◌then◌else◌};
ghost use Rattle.isdb_mmt.specs.Formats.Mpu.{fragment_code_of, fragment_type_of, indicator_code_of, indicator, completes_of, payload_header_fields, payload_header, mfu_at, unit_in, unit_at, unit_step, units_of, counted, declared_of, follows, lost_from};

use crate::part::Part;
use crate::walk_step::WalkStep;
use isdb_tlv::bytes;

// MPU_fragment_type (Table 6-2).
#[derive(Clone, Copy, Debug, PartialEq, Eq)]
pub enum FragmentType {
    // 0.
    MpuMetadata,
    // 1.
    MovieFragmentMetadata,
    // 2: the one that is broadcast.
    Mfu,
    // 3 to 15, as read.
    Reserved(u8),
}

// From the 4-bit field; higher bits of code are not looked at.
impl From<u8> for FragmentType {
    ghost from_gives = { λ code t. t ≡ fragment_type_of code };

    #[tactic(auto, unfolding(crate::specs::Formats::Mpu::fragment_type_of))]
    fn from(code: u8) -> FragmentType {
        match code % 16 {
            0 => FragmentType::MpuMetadata,
            1 => FragmentType::MovieFragmentMetadata,
            2 => FragmentType::Mfu,
            c => FragmentType::Reserved(c),
        }
    }
}

impl From<FragmentType> for u8 {
    ghost from_gives = { λ t code. code ≡ fragment_code_of t };

    fn from(t: FragmentType) -> u8 {
        match t {
            FragmentType::MpuMetadata => 0,
            FragmentType::MovieFragmentMetadata => 1,
            FragmentType::Mfu => 2,
            FragmentType::Reserved(c) => c,
        }
    }
}

// fragmentation_indicator (Table 6-3).
#[derive(Clone, Copy, Debug, PartialEq, Eq)]
pub enum FragmentationIndicator {
    // 00: undivided.
    Complete,
    // 01: the first part.
    Head,
    // 10: neither the first nor the last.
    Middle,
    // 11: the last part.
    Last,
}

// From the 2-bit field; higher bits of code are not looked at.
impl From<u8> for FragmentationIndicator {
    ghost from_gives = { λ code i. i ≡ indicator code };

    #[tactic(auto, unfolding(crate::specs::Formats::Mpu::indicator))]
    fn from(code: u8) -> FragmentationIndicator {
        match code % 4 {
            0 => FragmentationIndicator::Complete,
            1 => FragmentationIndicator::Head,
            2 => FragmentationIndicator::Middle,
            _ => FragmentationIndicator::Last,
        }
    }
}

impl From<FragmentationIndicator> for u8 {
    ghost from_gives = { λ i code. code ≡ indicator_code_of i };

    fn from(i: FragmentationIndicator) -> u8 {
        match i {
            FragmentationIndicator::Complete => 0,
            FragmentationIndicator::Head => 1,
            FragmentationIndicator::Middle => 2,
            FragmentationIndicator::Last => 3,
        }
    }
}

impl FragmentationIndicator {
    // Whether a unit ends with this payload.
    pub fn completes(self) -> bool
        ensures { result ≡ completes_of self }
    {
        matches!(
            self,
            FragmentationIndicator::Complete | FragmentationIndicator::Last
        )
    }
}

#[derive(Clone, Copy, Debug, PartialEq, Eq)]
pub struct PayloadHeader {
    pub fragment_type: FragmentType,
    pub timed: bool,
    pub fragmentation: FragmentationIndicator,
    pub aggregated: bool,
    pub fragment_counter: u8,
    pub mpu_sequence_number: u32,
}

fn header_fields(p: &[u8]) -> PayloadHeader
    requires { 8 ≤ length p.now }
    ensures { result ≡ payload_header_fields p.now }
{
    let f = p[2];
    PayloadHeader {
        fragment_type: FragmentType::from(f / 16),
        timed: f / 8 % 2 == 1,
        fragmentation: FragmentationIndicator::from(f / 2),
        aggregated: f % 2 == 1,
        fragment_counter: p[3],
        mpu_sequence_number: bytes::get_u32(p, 4),
    }
}

// The header of a payload: the declared bytes are to be there, and 8 bytes of the payload, whatever it declares.
#[tactic(auto, unfolding(crate::specs::Formats::Mpu::payload_header))]
pub fn parse_header(p: &[u8]) -> Option<PayloadHeader>
    ensures { result ≡ payload_header p.now }
{
    if p.len() < 2 {
        return None;
    }
    if p.len() < bytes::get_u16(p, 0) as usize + 2 {
        return None;
    }
    if p.len() < 8 {
        return None;
    }
    Some(header_fields(p))
}

// The declared bytes of a payload, of which its units are.
pub fn declared(p: &[u8]) -> &[u8]
    ensures { result.now ≡ declared_of p.now }
{
    bytes::part(p, 0, bytes::get_u16(p, 0) as usize + 2)
}

// The header of an MFU of timed data.
#[derive(Clone, Copy, Debug, PartialEq, Eq)]
pub struct MfuHeader {
    pub movie_fragment_sequence_number: u32,
    pub sample_number: u32,
    pub offset: u32,
    pub priority: u8,
    pub dependency_counter: u8,
}

// What stands for a header that is absent.
pub const NO_HEADER: MfuHeader = MfuHeader {
    movie_fragment_sequence_number: 0,
    sample_number: 0,
    offset: 0,
    priority: 0,
    dependency_counter: 0,
};

// A unit: a header where the data are timed, else an item id; its data by their place in the declared bytes.
#[derive(Clone, Copy)]
pub struct Unit {
    pub mfu: Option<MfuHeader>,
    pub item_id: Option<u32>,
    pub data: Part,
}

#[tactic(auto, using(isdb_tlv::proofs::Fields::be_one))]
fn mfu_at(b: &[u8]) -> MfuHeader
    ensures { result ≡ mfu_at b.now }
{
    MfuHeader {
        movie_fragment_sequence_number: bytes::get_u32(b, 0),
        sample_number: bytes::get_u32(b, 4),
        offset: bytes::get_u32(b, 8),
        priority: bytes::get_u8(b, 12),
        dependency_counter: bytes::get_u8(b, 13),
    }
}

// The unit in the bytes from at to end.
#[tactic(auto, unfolding(crate::specs::Formats::Mpu::unit_in))]
fn unit_in(q: &[u8], timed: bool, at: usize, end: usize) -> WalkStep<Unit>
    requires { (at ≤ end) × (end ≤ length q.now) }
    ensures { result ≡ unit_in q.now timed at end }
{
    let n = end - at;
    let b = bytes::part(q, at, n);
    if timed {
        if n < 14 {
            return WalkStep::Malformed;
        }
        return WalkStep::Entry(
            Unit {
                mfu: Some(mfu_at(b)),
                item_id: None,
                data: Part {
                    start: at + 14,
                    length: n - 14,
                },
            },
            end,
        );
    }
    if n < 4 {
        return WalkStep::Malformed;
    }
    WalkStep::Entry(
        Unit {
            mfu: None,
            item_id: Some(bytes::get_u32(b, 0)),
            data: Part {
                start: at + 4,
                length: n - 4,
            },
        },
        end,
    )
}

// The unit at a place: behind a length of 2 bytes where aggregated, else all that is left.
#[tactic(auto, unfolding(crate::specs::Formats::Mpu::unit_at))]
fn unit_at(q: &[u8], timed: bool, aggregated: bool, at: usize) -> WalkStep<Unit>
    requires { at ≤ length q.now }
    ensures { result ≡ unit_at q.now timed aggregated at }
{
    if !aggregated {
        return unit_in(q, timed, at, q.len());
    }
    if q.len() - at < 2 {
        return WalkStep::Malformed;
    }
    let n = bytes::get_u16(q, at) as usize;
    let start = at + 2;
    if q.len() - start < n {
        return WalkStep::Malformed;
    }
    unit_in(q, timed, start, start + n)
}

// The units of a payload's declared bytes q, by a cursor: the first one stands at 8, where there is to be one, and a place before
// it means it too.
#[tactic(auto, unfolding(crate::specs::Formats::Mpu::unit_step))]
pub fn next_unit(q: &[u8], timed: bool, aggregated: bool, at: usize) -> WalkStep<Unit>
    ensures { result ≡ unit_step q.now timed aggregated at }
{
    if q.len() < 8 {
        return WalkStep::Malformed;
    }
    if 8 < at && q.len() <= at {
        return WalkStep::End;
    }
    unit_at(q, timed, aggregated, at.max(8))
}

#[tactic(auto, using(crate::proofs::Units::unit_lies, crate::proofs::Units::units_at, crate::proofs::Units::one_more, isdb_tlv::proofs::Walk::plus_zero), unfolding(crate::specs::Formats::Mpu::units_of, crate::specs::Formats::Mpu::counted))]
pub fn count_units(q: &[u8], timed: bool, aggregated: bool) -> Option<usize>
    ensures { result ≡ counted (units_of q.now timed aggregated) }
{
    let mut at: usize = 8;
    let mut n: usize = 0;
    // No iterator: a step has three answers, and the two that end the loop differ.
    loop {
        match next_unit(q, timed, aggregated, at) {
            WalkStep::End => return Some(n),
            WalkStep::Malformed => return None,
            WalkStep::Entry(_, next) => {
                n += 1;
                at = next;
            }
        }
    }
}

// Whether a number is the one behind another; behind 4,294,967,295 comes 0.
#[tactic(auto, unfolding(crate::specs::Formats::Mpu::follows))]
pub fn follows_on(old: u32, new: u32) -> bool
    ensures { result ≡ follows old new }
{
    new == std::num::wrapping_add_u32(old, 1)
}

// How many packets are lost from one number to the next, 1,048,576 at most.
#[tactic(auto, unfolding(crate::specs::Formats::Mpu::lost_from))]
pub fn lost(old: u32, new: u32) -> u32
    ensures { result ≡ lost_from old new }
{
    let d = std::num::wrapping_sub_u32(new, std::num::wrapping_add_u32(old, 1));
    d.min(1_048_576)
}
