// AMT (ARIB STD-B60, Table 5-2): the IP flow of each service.
// Translated from table.rs of isdb-rs (Apache-2.0, see NOTICE) and changed.
ghost use Rattle.std.specs.Prelude.{◌≡◌, ◌<◌, ◌≤◌};
ghost use Rattle.isdb_mmt.specs.Formats.Amt.{address_at, address_size, flow_of, service_at, services_whole, amt_body, amt_of};

use crate::part;
use crate::table::section;
use crate::table::section::{SectionError, SectionHeader};
use isdb_tlv::bytes;
use isdb_tlv::ip::Address;

#[derive(Clone, Copy)]
pub struct Amt {
    pub services: u16,
}

// A service's source and destination, each an address and the length of its mask.
#[derive(Clone, Copy)]
pub struct AmtService {
    pub service_id: u16,
    pub src: Address,
    pub src_mask: u8,
    pub dst: Address,
    pub dst_mask: u8,
}

// An address of 4 bytes, or of 16.
fn address_at(b: &[u8], at: usize, wide: bool) -> Address
    requires { at < 32 }
    ensures { result ≡ address_at b.now at wide }
{
    if wide {
        return Address::V6(bytes::get_u64(b, at), bytes::get_u64(b, at + 8));
    }
    Address::V4(bytes::get_u32(b, at))
}

fn address_size(wide: bool) -> usize
    ensures { result ≡ address_size wide }
{
    if wide { 16 } else { 4 }
}

// The service whose addresses have size bytes each, in the loop at the start of b.
#[tactic(auto, using(isdb_tlv::proofs::Fields::be_one))]
fn flow_of(b: &[u8], id: u16, size: usize, wide: bool) -> AmtService
    requires { size ≤ 16 }
    ensures { result ≡ flow_of b.now id size wide }
{
    AmtService {
        service_id: id,
        src: address_at(b, 0, wide),
        src_mask: bytes::get_u8(b, size),
        dst: address_at(b, size + 1, wide),
        dst_mask: bytes::get_u8(b, size * 2 + 1),
    }
}

// The service at a place of the body. The first stands at 2; there are as many as amt.services says.
#[tactic(auto, unfolding(crate::specs::Formats::Amt::service_at))]
pub fn service_at(body: &[u8], at: usize) -> Option<(AmtService, usize)>
    ensures { result ≡ service_at body.now at }
{
    if part::left(body, at) < 4 {
        return None;
    }
    let start = at + 4;
    let f = bytes::get_u16(body, at + 2);
    let n = (f % 1024) as usize;
    if body.len() - start < n {
        return None;
    }
    let wide = f / 32768 == 1;
    let size = address_size(wide);
    if n < size * 2 + 2 {
        return None;
    }
    Some((
        flow_of(
            bytes::rest(body, start),
            bytes::get_u16(body, at),
            size,
            wide,
        ),
        start + n,
    ))
}

// Whether n services stand from a place on.
#[tactic(auto, using(crate::proofs::Services::whole_done, crate::proofs::Services::whole_none, crate::proofs::Services::whole_on_lem))]
fn services_whole(body: &[u8], n: u16, from: usize) -> bool
    ensures { result ≡ services_whole n body.now from }
{
    let mut at = from;
    for _ in 0..n {
        let Some((_, next)) = service_at(body, at) else {
            return false;
        };
        at = next;
    }
    true
}

// The body of a section whose header has been read.
#[tactic(auto, unfolding(crate::specs::Formats::Amt::amt_body))]
pub fn read(header: SectionHeader, body: &[u8]) -> Result<(SectionHeader, Amt), SectionError>
    ensures { result ≡ amt_body header body.now }
{
    if body.len() < 2 {
        return Err(SectionError::Malformed);
    }
    let n = bytes::get_u16(body, 0) / 64;
    if !services_whole(body, n, 2) {
        return Err(SectionError::Malformed);
    }
    Ok((header, Amt { services: n }))
}

// A whole section.
#[tactic(auto, unfolding(crate::specs::Formats::Amt::amt_of))]
pub fn parse(b: &[u8]) -> Result<(SectionHeader, Amt), SectionError>
    ensures { result ≡ amt_of b.now }
{
    let header = section::long_section(b)?;
    read(header, header.body.of(b))
}
