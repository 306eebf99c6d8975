// MH-SDT (ARIB STD-B60, Table 7-23): the services of a TLV stream.
// Translated from table.rs of isdb-rs (Apache-2.0, see NOTICE) and changed.
ghost use Rattle.std.specs.Prelude.{◌≡◌};
ghost use Rattle.isdb_mmt.specs.Formats.Desc.{first_of};
ghost use Rattle.isdb_mmt.specs.Formats.Tags.{service_tag};
ghost use Rattle.isdb_mmt.specs.Formats.Sdt.{sdt_body, sdt_of, service_of, service_step};

use crate::desc;
use crate::desc::{Descriptor, tag};
use crate::part::Part;
use crate::table::section;
use crate::table::section::{Entry, Parsed, SectionError, SectionHeader};
use crate::walk_step::WalkStep;
use isdb_tlv::bytes;

// The field of a section's body, and how many services it has.
#[derive(Clone, Copy)]
pub struct Sdt {
    pub original_network_id: u16,
    pub services: usize,
}

// The body of a section whose header has been read.
#[tactic(auto, using(crate::proofs::Entries::whole_told, crate::proofs::Entries::count_told, crate::proofs::Entries::breaks_told), unfolding(crate::specs::Formats::Sdt::sdt_body))]
pub fn read(header: SectionHeader, body: &[u8]) -> Parsed<(SectionHeader, Sdt)>
    ensures { result ≡ sdt_body header body.now }
{
    if body.len() < 2 {
        return section::refused(SectionError::Malformed, 0);
    }
    let l = section::read_entries(body, 3, 3);
    if !l.whole {
        return section::refused(SectionError::Malformed, l.breaks);
    }
    let sdt = Sdt {
        original_network_id: bytes::get_u16(body, 0),
        services: l.count,
    };
    Parsed {
        result: Ok((header, sdt)),
        breaks: l.breaks,
    }
}

// A whole section. No trait over what eit, sdt and bit read: its law and its three impls are longer than the three matches.
#[tactic(auto, unfolding(crate::specs::Formats::Sdt::sdt_of))]
pub fn parse(b: &[u8]) -> Parsed<(SectionHeader, Sdt)>
    ensures { result ≡ sdt_of b.now }
{
    match section::long_section(b) {
        Err(e) => section::refused(e, 0),
        Ok(header) => read(header, header.body.of(b)),
    }
}

#[derive(Clone, Copy)]
pub struct SdtService {
    pub service_id: u16,
    pub eit_user_defined_flags: u8,
    pub eit_schedule: bool,
    pub eit_present_following: bool,
    pub running_status: u8,
    pub free_ca: bool,
    pub descriptors: Part,
}

#[tactic(auto, using(crate::proofs::Fields::first_field, crate::proofs::Fields::byte_field))]
fn service_of(body: &[u8], e: Entry) -> SdtService
    ensures { result ≡ service_of body.now e }
{
    let b = bytes::rest(body, e.at);
    let flags = bytes::get_u8(b, 2);
    let status = bytes::get_u8(b, 3);
    SdtService {
        service_id: bytes::get_u16(b, 0),
        eit_user_defined_flags: flags / 4 % 8,
        eit_schedule: flags / 2 % 2 == 1,
        eit_present_following: flags % 2 == 1,
        running_status: status / 32,
        free_ca: status / 16 % 2 == 1,
        descriptors: e.descriptors,
    }
}

// The services of a body, by a cursor that starts at 3.
#[tactic(auto, unfolding(crate::specs::Formats::Sdt::service_step))]
pub fn next_service(body: &[u8], at: usize) -> WalkStep<SdtService>
    ensures { result ≡ service_step body.now at }
{
    match section::next_entry(body, 3, at) {
        WalkStep::End => WalkStep::End,
        WalkStep::Malformed => WalkStep::Malformed,
        WalkStep::Entry(e, next) => WalkStep::Entry(service_of(body, e), next),
    }
}

// The first service descriptor of a service's descriptors.
pub fn service_descriptor(descriptors: &[u8]) -> Option<(Descriptor, Part)>
    ensures { result ≡ first_of service_tag descriptors.now 0 }
{
    desc::first_of(descriptors, tag::SERVICE)
}
