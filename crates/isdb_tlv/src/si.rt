// TLV-SI in transmission control packets (type FEh): TLV-NIT (table id 40h, 41h) and AMT (FEh), sections of the extended
// format with a CRC (ARIB STD-B32 Part 3, 3.2 and 3.10; STD-B60, 5, Tables 4-2 and 5-1).
// What stands around a section in a control packet's data is laid down elsewhere (a notification of the ministry, ARIB
// STD-B63), and none of it is used here: a section is found by itself. It starts wherever a known table id stands, the
// section syntax indicator behind it is set, and the CRC over as many bytes as its length says is good.
// Translated from si.rs of isdb-rs (Apache-2.0, see NOTICE) and changed.
ghost use Rattle.std.specs.Prelude.{◌≡◌, ◌+◌, ◌≤◌, ◌<◌, length, take, drop};
ghost use Rattle.isdb_tlv.specs.Si.{is_tlv_si, section_at, next_section_of};

use crate::{bytes, crc};

// A section found in a control packet's data.
#[derive(Clone, Copy, Debug, PartialEq, Eq)]
pub struct Section {
    // Where it starts.
    pub offset: usize,
    pub table_id: u8,
    // Table id extension: the network id of a TLV-NIT.
    pub extension: u16,
    pub version: u8,
    // Of the whole section, CRC included.
    pub size: usize,
}

impl Section {
    // The whole section, a part of the data it was found in.
    pub fn bytes(self, data: &[u8]) -> &[u8]
        ensures { result.now ≡ take self.size (drop self.offset «data».now) }
    {
        let offset = self.offset;
        let size = self.size;
        bytes::part(data, offset, size)
    }
}

// Table ids (STD-B60, Table 4-2).
pub const NIT_ACTUAL: u8 = 0x40;

pub const NIT_OTHER: u8 = 0x41;

pub const AMT: u8 = 0xFE;

#[tactic(auto, unfolding(crate::specs::Si::is_tlv_si))]
fn is_tlv_si(id: u8) -> bool
    ensures { result ≡ is_tlv_si id }
{
    matches!(id, NIT_ACTUAL | NIT_OTHER | AMT)
}

// The section that starts at i, if one does.
#[tactic(auto, unfolding(crate::specs::Si::section_at, crate::specs::Bytes::be))]
fn section_at(data: &[u8], i: usize) -> Option<Section>
    requires { i + 3 ≤ length «data».now }
    ensures { result ≡ section_at «data».now i }
{
    let table_id = data[i];
    if !is_tlv_si(table_id) {
        return None;
    }
    if data[i + 1] < 128 {
        return None;
    }
    let size = (usize::from(data[i + 1]) * 256 + usize::from(data[i + 2])) % 4096 + 3;
    if size < 12 {
        return None;
    }
    if data.len() - i < size {
        return None;
    }
    if crc::crc32(bytes::part(data, i, size)) != 0 {
        return None;
    }
    Some(Section {
        offset: i,
        table_id,
        extension: bytes::get_u16(data, i + 3),
        version: data[i + 5] / 2 % 32,
        size,
    })
}

// The first section at or behind a place: every place is tried, since the data around sections says nothing of where they
// start. To go on from one: the place behind it, offset + size.
#[tactic(auto, using(crate::proofs::Sections::next_none, crate::proofs::Sections::next_on))]
pub fn next_section(data: &[u8], at: usize) -> Option<Section>
    ensures { result ≡ next_section_of «data».now at }
{
    for i in at..data.len().saturating_sub(2) {
        if let Some(s) = section_at(data, i) {
            return Some(s);
        }
    }
    None
}
