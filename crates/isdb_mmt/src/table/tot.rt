// MH-TOT (ARIB STD-B60, Table 7-25): the current time, a short section with a CRC.
// Translated from table.rs of isdb-rs (Apache-2.0, see NOTICE) and changed.
ghost use Rattle.std.specs.Prelude.{◌≡◌};
ghost use Rattle.isdb_mmt.specs.Formats.Tot.{tot_fields, tot_of};

use crate::part::Part;
use crate::table::section;
use crate::table::section::{Parsed, SectionError};
use isdb_tlv::{bytes, crc};

#[derive(Clone, Copy)]
pub struct Tot {
    // Japan standard time, 40 bits: a day number and BCD.
    pub jst: u64,
    pub descriptors: Part,
}

// The section of n bytes at the start of b. The descriptor loop may run into the CRC.
#[tactic(auto, using(crate::proofs::Fields::long_within), unfolding(crate::specs::Formats::Tot::tot_fields))]
fn read(b: &[u8], n: usize) -> Parsed<Tot>
    ensures { result ≡ tot_fields b.now n }
{
    let s = bytes::part(b, 0, n);
    let length = bytes::get_u12(s, 8) as usize;
    if s.len() < length + 10 {
        return section::refused(SectionError::Malformed, 0);
    }
    let descriptors = Part { start: 10, length };
    Parsed {
        result: Ok(Tot {
            jst: bytes::number(s, 3, 5),
            descriptors,
        }),
        breaks: section::broken(descriptors.of(s)),
    }
}

// A whole section.
#[tactic(auto, unfolding(crate::specs::Formats::Tot::tot_of))]
pub fn parse(b: &[u8]) -> Parsed<Tot>
    ensures { result ≡ tot_of b.now }
{
    if b.len() < 3 {
        return section::refused(SectionError::Truncated, 0);
    }
    let length = bytes::get_u12(b, 1) as usize;
    if length < 11 {
        return section::refused(SectionError::Truncated, 0);
    }
    let end = length + 3;
    if b.len() < end {
        return section::refused(SectionError::Truncated, 0);
    }
    if crc::crc32(bytes::part(b, 0, end)) != 0 {
        return section::refused(SectionError::Crc, 0);
    }
    read(b, end)
}
