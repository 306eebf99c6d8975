// MH-EIT (ARIB STD-B60, Table 7-18): the events of a service.
// Translated from table.rs of isdb-rs (Apache-2.0, see NOTICE) and changed.
ghost use Rattle.std.specs.Prelude.{◌≡◌};
ghost use Rattle.isdb_mmt.specs.Formats.Desc.{first_of};
ghost use Rattle.isdb_mmt.specs.Formats.Tags.{short_event_tag};
ghost use Rattle.isdb_mmt.specs.Formats.Eit.{eit_body, eit_of, event_of, event_step};

use crate::desc;
use crate::desc::{Descriptor, tag};
use crate::part::Part;
use crate::table::section;
use crate::table::section::{Entry, Parsed, SectionError, SectionHeader};
use crate::walk_step::WalkStep;
use isdb_tlv::bytes;

// The fields of a section's body, and how many events it has.
#[derive(Clone, Copy)]
pub struct Eit {
    pub tlv_stream_id: u16,
    pub original_network_id: u16,
    pub segment_last_section_number: u8,
    pub last_table_id: u8,
    pub events: usize,
}

// The body of a section whose header has been read.
#[tactic(auto, using(crate::proofs::Entries::whole_told, crate::proofs::Entries::count_told, crate::proofs::Entries::breaks_told, isdb_tlv::proofs::Fields::be_one), unfolding(crate::specs::Formats::Eit::eit_body))]
pub fn read(header: SectionHeader, body: &[u8]) -> Parsed<(SectionHeader, Eit)>
    ensures { result ≡ eit_body header body.now }
{
    if body.len() < 6 {
        return section::refused(SectionError::Malformed, 0);
    }
    let l = section::read_entries(body, 10, 6);
    if !l.whole {
        return section::refused(SectionError::Malformed, l.breaks);
    }
    let eit = Eit {
        tlv_stream_id: bytes::get_u16(body, 0),
        original_network_id: bytes::get_u16(body, 2),
        segment_last_section_number: bytes::get_u8(body, 4),
        last_table_id: bytes::get_u8(body, 5),
        events: l.count,
    };
    Parsed {
        result: Ok((header, eit)),
        breaks: l.breaks,
    }
}

// A whole section. No trait over what eit, sdt and bit read: its law and its three impls are longer than the three matches.
#[tactic(auto, unfolding(crate::specs::Formats::Eit::eit_of))]
pub fn parse(b: &[u8]) -> Parsed<(SectionHeader, Eit)>
    ensures { result ≡ eit_of b.now }
{
    match section::long_section(b) {
        Err(e) => section::refused(e, 0),
        Ok(header) => read(header, header.body.of(b)),
    }
}

#[derive(Clone, Copy)]
pub struct Event {
    pub event_id: u16,
    // Start time, 40 bits: Japan standard time, a day number and BCD.
    pub start: u64,
    // Duration, 24 bits of BCD.
    pub duration: u32,
    pub running_status: u8,
    pub free_ca: bool,
    pub descriptors: Part,
}

#[tactic(auto, using(crate::proofs::Fields::first_field, crate::proofs::Fields::byte_field, crate::proofs::Fields::long_field, crate::proofs::Fields::three_fit))]
fn event_of(body: &[u8], e: Entry) -> Event
    ensures { result ≡ event_of body.now e }
{
    let b = bytes::rest(body, e.at);
    let status = bytes::get_u8(b, 10);
    Event {
        event_id: bytes::get_u16(b, 0),
        start: bytes::number(b, 2, 5),
        duration: bytes::number(b, 7, 3) as u32,
        running_status: status / 32,
        free_ca: status / 16 % 2 == 1,
        descriptors: e.descriptors,
    }
}

// The events of a body, by a cursor that starts at 6.
#[tactic(auto, unfolding(crate::specs::Formats::Eit::event_step))]
pub fn next_event(body: &[u8], at: usize) -> WalkStep<Event>
    ensures { result ≡ event_step body.now at }
{
    match section::next_entry(body, 10, at) {
        WalkStep::End => WalkStep::End,
        WalkStep::Malformed => WalkStep::Malformed,
        WalkStep::Entry(e, next) => WalkStep::Entry(event_of(body, e), next),
    }
}

// The first short event descriptor of an event's descriptors.
pub fn short_event(descriptors: &[u8]) -> Option<(Descriptor, Part)>
    ensures { result ≡ first_of short_event_tag descriptors.now 0 }
{
    desc::first_of(descriptors, tag::SHORT_EVENT)
}
