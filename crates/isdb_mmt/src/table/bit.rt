// MH-BIT (ARIB STD-B60, Table 7-21): the broadcasters of a network.
// Translated from table.rs of isdb-rs (Apache-2.0, see NOTICE) and changed.
ghost use Rattle.std.specs.Prelude.{◌≡◌};
ghost use Rattle.isdb_mmt.specs.Formats.Bit.{bit_body, bit_of, broadcaster_of, broadcaster_step};

use crate::part::Part;
use crate::table::section;
use crate::table::section::{Entry, Parsed, SectionError, SectionHeader};
use crate::walk_step::WalkStep;
use isdb_tlv::bytes;

// The fields of a section's body: its first descriptor loop, and how many broadcasters stand behind it.
#[derive(Clone, Copy)]
pub struct Bit {
    pub broadcast_view_propriety: bool,
    pub descriptors: Part,
    pub broadcasters: usize,
}

// The body of a section whose header has been read.
#[tactic(auto, using(crate::proofs::Entries::whole_told, crate::proofs::Entries::count_told, crate::proofs::Entries::breaks_told, crate::proofs::Entries::breaks_fit, isdb_tlv::proofs::Fields::be_one), unfolding(crate::specs::Formats::Bit::bit_body))]
pub fn read(header: SectionHeader, body: &[u8]) -> Parsed<(SectionHeader, Bit)>
    ensures { result ≡ bit_body header body.now }
{
    if body.len() < 2 {
        return section::refused(SectionError::Malformed, 0);
    }
    let n = bytes::get_u12(body, 0) as usize;
    let end = n + 2;
    if body.len() < end {
        return section::refused(SectionError::Malformed, 0);
    }
    let first = section::broken(bytes::part(body, 2, n));
    let l = section::read_entries(body, 1, end);
    let breaks = first + l.breaks;
    if !l.whole {
        return section::refused(SectionError::Malformed, breaks);
    }
    let bit = Bit {
        broadcast_view_propriety: bytes::get_u8(body, 0) / 16 % 2 == 1,
        descriptors: Part {
            start: 2,
            length: n,
        },
        broadcasters: l.count,
    };
    Parsed {
        result: Ok((header, bit)),
        breaks,
    }
}

// A whole section. No trait over what eit, sdt and bit read: its law and its three impls are longer than the three matches.
#[tactic(auto, unfolding(crate::specs::Formats::Bit::bit_of))]
pub fn parse(b: &[u8]) -> Parsed<(SectionHeader, Bit)>
    ensures { result ≡ bit_of b.now }
{
    match section::long_section(b) {
        Err(e) => section::refused(e, 0),
        Ok(header) => read(header, header.body.of(b)),
    }
}

#[derive(Clone, Copy)]
pub struct Broadcaster {
    pub broadcaster_id: u8,
    pub descriptors: Part,
}

#[tactic(auto, using(isdb_tlv::proofs::Fields::be_one))]
fn broadcaster_of(body: &[u8], e: Entry) -> Broadcaster
    ensures { result ≡ broadcaster_of body.now e }
{
    Broadcaster {
        broadcaster_id: bytes::get_u8(body, e.at),
        descriptors: e.descriptors,
    }
}

// The broadcasters of a body, by a cursor that starts behind the first descriptor loop.
#[tactic(auto, unfolding(crate::specs::Formats::Bit::broadcaster_step))]
pub fn next_broadcaster(body: &[u8], at: usize) -> WalkStep<Broadcaster>
    ensures { result ≡ broadcaster_step body.now at }
{
    match section::next_entry(body, 1, at) {
        WalkStep::End => WalkStep::End,
        WalkStep::Malformed => WalkStep::Malformed,
        WalkStep::Entry(e, next) => { WalkStep::Entry(broadcaster_of(body, e), next) }
    }
}
