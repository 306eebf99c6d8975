// The place of a kept section: its key, version and length. Its bytes lie in the place's table area.
ghost use Rattle.std.specs.Prelude.{◌≡◌, ◌+◌, ◌<◌, ◌≤◌, length};
ghost use Rattle.isdb_tlv.specs.Fields.{written};
ghost use Rattle.isdb_mmt.specs.Memory.Lent.{part, over};
ghost use Rattle.isdb_mmt.specs.Memory.Layout.{most_sections, section_size};
ghost use Rattle.isdb_mmt.specs.Memory.Session.{section_place_of, section_fields, section_at};

use crate::decoder::layout::{SECTION_PLACES, SECTION_SIZE};
use isdb_tlv::bytes;

#[derive(Clone, Copy)]
pub(crate) struct KeptSection {
    // Table id, table id extension and section number.
    pub key: u32,
    pub version: u8,
    pub length: u32,
}

// The section place that starts at a place of some bytes.
#[tactic(auto, unfolding(crate::specs::Memory::Session::section_place_of))]
pub(crate) fn section_at(s: &[u8], at: usize) -> KeptSection
    ensures { result ≡ section_place_of (part at section_size s.now) }
{
    let p = bytes::part(s, at, SECTION_SIZE);
    KeptSection {
        key: bytes::get_u32(p, 0),
        version: bytes::get_u8(p, 4),
        length: bytes::get_u32(p, 5),
    }
}

// The section place with the index i.
pub(crate) fn load_section(s: &[u8], i: usize) -> KeptSection
    requires { i < most_sections }
    ensures { result ≡ section_at s.now i }
{
    section_at(s, SECTION_PLACES + SECTION_SIZE * i)
}

pub(crate) fn put_section_at(s: &mut [u8], at: usize, x: KeptSection)
    requires { at + section_size ≤ length s.old }
    ensures { s.new ≡ over at (written (section_fields x)) s.old }
{
    bytes::put4(
        s,
        at,
        0x4140,
        x.key as u64,
        x.version as u64,
        x.length as u64,
        0,
    );
}
