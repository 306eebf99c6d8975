// The long-form section that MH-EIT, MH-SDT, MH-BIT, TLV-NIT and AMT share (ARIB STD-B60, 7.2.3.2), and the entries of
// their loops.
// Translated from table.rs of isdb-rs (Apache-2.0, see NOTICE) and changed.
ghost use Rattle.std.specs.Prelude.{◌≡◌, Err};
ghost use Rattle.isdb_mmt.specs.Formats.Desc.{broken as broken_loop_of};
ghost use Rattle.isdb_mmt.specs.Formats.Section.{header_of, long_section_of, parsed, entry_at, entries_told, entries_from};

use crate::desc;
use crate::part::Part;
use crate::walk_step::WalkStep;
use isdb_tlv::{bytes, crc};

#[derive(Clone, Copy)]
pub struct SectionHeader {
    pub table_id: u8,
    // Table id extension: service id, TLV stream id, network id, ..
    pub extension: u16,
    pub version: u8,
    // current_next_indicator.
    pub current: bool,
    pub section_number: u8,
    pub last_section_number: u8,
    // Between the header and the CRC.
    pub body: Part,
}

// Why a section was not read.
#[derive(Clone, Copy, Debug, PartialEq, Eq)]
pub enum SectionError {
    // Shorter than its header or its section_length.
    Truncated,
    // The CRC does not match.
    Crc,
    // The body does not follow the table's structure.
    Malformed,
}

// The header of a section whose body has n bytes.
#[tactic(auto, using(isdb_tlv::proofs::Fields::be_one))]
fn header_of(b: &[u8], n: usize) -> SectionHeader
    ensures { result ≡ header_of b.now n }
{
    let flags = bytes::get_u8(b, 5);
    SectionHeader {
        table_id: bytes::get_u8(b, 0),
        extension: bytes::get_u16(b, 3),
        version: flags / 2 % 32,
        current: flags % 2 == 1,
        section_number: bytes::get_u8(b, 6),
        last_section_number: bytes::get_u8(b, 7),
        body: Part {
            start: 8,
            length: n,
        },
    }
}

// A long-form section: its header, where its length and its CRC are good.
#[tactic(auto, unfolding(crate::specs::Formats::Section::long_section_of))]
pub fn long_section(b: &[u8]) -> Result<SectionHeader, SectionError>
    ensures { result ≡ long_section_of b.now }
{
    if b.len() < 3 {
        return Err(SectionError::Truncated);
    }
    let n = bytes::get_u12(b, 1) as usize;
    if n < 9 {
        return Err(SectionError::Truncated);
    }
    let end = n + 3;
    if b.len() < end {
        return Err(SectionError::Truncated);
    }
    if crc::crc32(bytes::part(b, 0, end)) != 0 {
        return Err(SectionError::Crc);
    }
    Ok(header_of(b, n - 9))
}

// What a table's section gives, and how many descriptor loops broke on the way.
#[derive(Clone, Copy)]
pub struct Parsed<T> {
    pub result: Result<T, SectionError>,
    pub breaks: usize,
}

// A section that was not read.
pub(crate) fn refused<T>(e: SectionError, breaks: usize) -> Parsed<T>
    ensures { result ≡ parsed (Err e) breaks }
{
    Parsed {
        result: Err(e),
        breaks,
    }
}

// An entry of a table's loop: fields from at on, then a descriptor loop behind its length of 12 bits.
#[derive(Clone, Copy)]
pub struct Entry {
    pub at: usize,
    pub descriptors: Part,
}

// The entries of a loop that ends with b, each with so many bytes of fields before the descriptors' length.
#[tactic(auto, unfolding(crate::specs::Formats::Section::entry_at))]
pub fn next_entry(b: &[u8], fields: u8, at: usize) -> WalkStep<Entry>
    ensures { result ≡ entry_at b.now fields at }
{
    if b.len() <= at {
        return WalkStep::End;
    }
    let k = fields as usize;
    if b.len() - at < k + 2 {
        return WalkStep::Malformed;
    }
    let start = at + k + 2;
    let length = bytes::get_u12(b, at + k) as usize;
    if b.len() - start < length {
        return WalkStep::Malformed;
    }
    WalkStep::Entry(
        Entry {
            at,
            descriptors: Part { start, length },
        },
        start + length,
    )
}

// How many entries a loop has, how many of their descriptor loops break, and whether it ends with its last entry.
#[derive(Clone, Copy)]
pub struct Entries {
    pub count: usize,
    pub breaks: usize,
    pub whole: bool,
}

// 1 for a descriptor loop that breaks.
#[tactic(auto, unfolding(crate::specs::Formats::Desc::counted))]
pub fn broken(b: &[u8]) -> usize
    ensures { result ≡ broken_loop_of b.now }
{
    let c = desc::decode_all(b);
    if c.broken { 1 } else { 0 }
}

#[tactic(auto, using(crate::proofs::Entries::entry_lies, crate::proofs::Entries::broken_le, crate::proofs::Entries::plus_zero, crate::proofs::Entries::count_end, crate::proofs::Entries::count_malformed, crate::proofs::Entries::count_on))]
pub fn read_entries(b: &[u8], fields: u8, from: usize) -> Entries
    ensures { result ≡ entries_told (entries_from b.now fields from) }
{
    let mut at = from;
    let mut count: usize = 0;
    let mut breaks: usize = 0;
    // No iterator: a step has three answers, and the two that end the loop differ.
    loop {
        match next_entry(b, fields, at) {
            WalkStep::Entry(e, next) => {
                count += 1;
                breaks += broken(e.descriptors.of(b));
                at = next;
            }
            WalkStep::Malformed => {
                return Entries {
                    count,
                    breaks,
                    whole: false,
                };
            }
            WalkStep::End => {
                return Entries {
                    count,
                    breaks,
                    whole: true,
                };
            }
        }
    }
}
