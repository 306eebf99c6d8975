// PLT (ARIB STD-B60, Table 7-11): where each package's PA message travels, and the IP services.
// Translated from table.rs of isdb-rs (Apache-2.0, see NOTICE) and changed.
ghost use Rattle.std.specs.Prelude.{◌≡◌};
ghost use Rattle.isdb_mmt.specs.Formats.Plt.{package_at_of, packages_end, delivery_size, delivery_at_of, deliveries_whole, plt_with, plt_deliveries, plt_table, plt_of};

use crate::location::Location;
use crate::part;
use crate::part::Part;
use crate::table::mpt;
use isdb_tlv::bytes;

#[derive(Clone, Copy)]
pub struct Package {
    pub package_id: Part,
    // A URL's place counts from the location's first byte, location_start.
    pub location: Location,
    pub location_start: usize,
}

// The package at a place of a table. The first stands at 5; there are as many as plt.packages.
#[tactic(auto, using(crate::proofs::Assets::location_within, isdb_tlv::proofs::Fields::be_one), unfolding(crate::specs::Formats::Plt::package_at_of))]
pub fn package_at(t: &[u8], at: usize) -> Option<(Package, usize)>
    ensures { result ≡ package_at_of t.now at }
{
    if t.len() <= at {
        return None;
    }
    let n = bytes::get_u8(t, at) as usize;
    let start = at + 1;
    if t.len() - start < n {
        return None;
    }
    let q = start + n;
    let (location, taken) = mpt::location_at(t, q)?;
    Some((
        Package {
            package_id: Part { start, length: n },
            location,
            location_start: q,
        },
        q + taken,
    ))
}

// Behind n packages, the first of which stands at a place.
#[tactic(auto, using(crate::proofs::Packages::end_none, crate::proofs::Packages::end_on))]
fn packages_end(t: &[u8], n: u8, from: usize) -> Option<usize>
    ensures { result ≡ packages_end n t.now from }
{
    let mut at = from;
    for _ in 0..n {
        let (_, next) = package_at(t, at)?;
        at = next;
    }
    Some(at)
}

#[derive(Clone, Copy)]
pub struct IpDelivery {
    pub transport_file_id: u32,
    pub location_type: u8,
}

// How many bytes of location follow the type, in the bytes from it on: types 1, 2 and 5 alone are known.
#[tactic(auto, using(isdb_tlv::proofs::Fields::be_one), unfolding(crate::specs::Formats::Plt::delivery_size))]
fn delivery_size(b: &[u8]) -> Option<usize>
    ensures { result ≡ delivery_size b.now }
{
    match bytes::get_u8(b, 0) {
        1 => Some(10),
        2 => Some(34),
        5 => {
            if b.len() < 2 {
                return None;
            }
            Some(bytes::get_u8(b, 1) as usize + 1)
        }
        _ => None,
    }
}

// The IP delivery at a place of a table. Its descriptors' length is not held against the end of the table.
#[tactic(auto, using(crate::proofs::Packages::size_le, isdb_tlv::proofs::Fields::be_one), unfolding(crate::specs::Formats::Plt::delivery_at_of))]
pub fn delivery_at(t: &[u8], at: usize) -> Option<(IpDelivery, usize)>
    ensures { result ≡ delivery_at_of t.now at }
{
    if part::left(t, at) < 5 {
        return None;
    }
    let p = at + 4;
    let n = delivery_size(bytes::rest(t, p))?;
    let start = at + 7 + n;
    if t.len() < start {
        return None;
    }
    Some((
        IpDelivery {
            transport_file_id: bytes::get_u32(t, at),
            location_type: bytes::get_u8(t, p),
        },
        start + bytes::get_u16(t, at + 5 + n) as usize,
    ))
}

// Whether n deliveries stand from a place on.
#[tactic(auto, using(crate::proofs::Packages::whole_none, crate::proofs::Packages::whole_on_lem), unfolding(crate::specs::Formats::Plt::deliveries_whole))]
fn deliveries_whole(t: &[u8], n: u8, from: usize) -> bool
    ensures { result ≡ deliveries_whole n t.now from }
{
    let mut at = from;
    for _ in 0..n {
        let Some((_, next)) = delivery_at(t, at) else {
            return false;
        };
        at = next;
    }
    true
}

#[derive(Clone, Copy)]
pub struct Plt {
    pub version: u8,
    // How many packages there are; the first stands at 5.
    pub packages: u8,
    // How many IP deliveries there are, and where the first stands.
    pub ip_deliveries: u8,
    pub deliveries_start: usize,
}

// A table with n deliveries, the first of which stands at start.
#[tactic(auto, using(isdb_tlv::proofs::Fields::be_one))]
fn plt_with(t: &[u8], n: u8, start: usize) -> Option<Plt>
    ensures { result ≡ plt_with t.now n start }
{
    Some(Plt {
        version: bytes::get_u8(t, 1),
        packages: bytes::get_u8(t, 4),
        ip_deliveries: n,
        deliveries_start: start,
    })
}

// From the number of deliveries on, which may be absent.
#[tactic(auto, using(isdb_tlv::proofs::Fields::be_one), unfolding(crate::specs::Formats::Plt::plt_deliveries))]
fn read_deliveries(t: &[u8], at: usize) -> Option<Plt>
    ensures { result ≡ plt_deliveries t.now at }
{
    if part::left(t, at) == 0 {
        return plt_with(t, 0, at);
    }
    let n = bytes::get_u8(t, at);
    if !deliveries_whole(t, n, at + 1) {
        return None;
    }
    plt_with(t, n, at + 1)
}

// A table cut to its declared bytes.
#[tactic(auto, using(isdb_tlv::proofs::Fields::be_one), unfolding(crate::specs::Formats::Plt::plt_table))]
fn read(t: &[u8]) -> Option<Plt>
    ensures { result ≡ plt_table t.now }
{
    if t.len() < 5 {
        return None;
    }
    let at = packages_end(t, bytes::get_u8(t, 4), 5)?;
    read_deliveries(t, at)
}

// A table, its table id first. Bytes behind the declared ones are not looked at.
#[tactic(auto, unfolding(crate::specs::Formats::Plt::plt_of))]
pub fn parse(b: &[u8]) -> Option<Plt>
    ensures { result ≡ plt_of b.now }
{
    let n = mpt::declared_length(b)?;
    read(bytes::part(b, 0, n))
}
