// MMT_general_location_info (ARIB STD-B60, Table 7-9): where an asset, a package or a message travels.
// Translated from table.rs of isdb-rs (Apache-2.0, see NOTICE) and changed.
ghost use Rattle.std.specs.Prelude.{◌≡◌};
ghost use Rattle.isdb_mmt.specs.Formats.Location.{sized, url_of, ipv4_at, ipv6_at, location_of, packet_id_of};

use crate::part::Part;
use isdb_tlv::bytes;

#[derive(Clone, Copy, Debug, PartialEq, Eq)]
pub enum Location {
    // 00h: an MMTP packet id in the same IP data flow.
    SameFlow(u16),
    // 01h: in an IPv4 data flow: source, destination, destination port, packet id.
    Ipv4 {
        src: u32,
        dst: u32,
        port: u16,
        packet_id: u16,
    },
    // 02h: in an IPv6 data flow, each address in two halves, the high one first.
    Ipv6 {
        src_high: u64,
        src_low: u64,
        dst_high: u64,
        dst_low: u64,
        port: u16,
        packet_id: u16,
    },
    // 03h: an MPEG-2 TS packet of a broadcast network; the PID field as its 16 bits stand.
    Mpeg2Ts {
        network_id: u16,
        ts_id: u16,
        pid: u16,
    },
    // 04h: an MPEG-2 TS packet in an IPv6 data flow.
    Mpeg2TsIpv6 {
        port: u16,
        pid: u16,
    },
    // 05h: a URL, by its place in the bytes that were read.
    Url(Part),
}

fn ipv4_at(b: &[u8]) -> Location
    ensures { result ≡ ipv4_at b.now }
{
    Location::Ipv4 {
        src: bytes::get_u32(b, 1),
        dst: bytes::get_u32(b, 5),
        port: bytes::get_u16(b, 9),
        packet_id: bytes::get_u16(b, 11),
    }
}

fn ipv6_at(b: &[u8]) -> Location
    ensures { result ≡ ipv6_at b.now }
{
    Location::Ipv6 {
        src_high: bytes::get_u64(b, 1),
        src_low: bytes::get_u64(b, 9),
        dst_high: bytes::get_u64(b, 17),
        dst_low: bytes::get_u64(b, 25),
        port: bytes::get_u16(b, 33),
        packet_id: bytes::get_u16(b, 35),
    }
}

// A location of n bytes, where they are there.
#[tactic(auto, unfolding(crate::specs::Formats::Location::sized))]
fn if_present(b: &[u8], n: usize, l: Location) -> Option<(Location, usize)>
    ensures { result ≡ sized b.now n l }
{
    if b.len() < n {
        return None;
    }
    Some((l, n))
}

#[tactic(auto, using(isdb_tlv::proofs::Fields::be_one), unfolding(crate::specs::Formats::Location::url_of))]
fn url(b: &[u8]) -> Option<(Location, usize)>
    ensures { result ≡ url_of b.now }
{
    if b.len() < 2 {
        return None;
    }
    let length = bytes::get_u8(b, 1) as usize;
    if_present(b, length + 2, Location::Url(Part { start: 2, length }))
}

impl Location {
    // One location at the start of b, and the bytes it took.
    #[tactic(auto, using(isdb_tlv::proofs::Fields::be_one), unfolding(crate::specs::Formats::Location::location_of))]
    pub fn parse(b: &[u8]) -> Option<(Location, usize)>
        ensures { result ≡ location_of b.now }
    {
        if b.len() < 1 {
            return None;
        }
        match bytes::get_u8(b, 0) {
            0x00 => if_present(b, 3, Location::SameFlow(bytes::get_u16(b, 1))),
            0x01 => if_present(b, 13, ipv4_at(b)),
            0x02 => if_present(b, 37, ipv6_at(b)),
            0x03 => if_present(
                b,
                7,
                Location::Mpeg2Ts {
                    network_id: bytes::get_u16(b, 1),
                    ts_id: bytes::get_u16(b, 3),
                    pid: bytes::get_u16(b, 5),
                },
            ),
            0x04 => if_present(
                b,
                37,
                Location::Mpeg2TsIpv6 {
                    port: bytes::get_u16(b, 33),
                    pid: bytes::get_u16(b, 35),
                },
            ),
            0x05 => url(b),
            _ => None,
        }
    }

    // The MMTP packet id that the location designates, if any.
    pub fn packet_id(self) -> Option<u16>
        ensures { result ≡ packet_id_of self }
    {
        match self {
            Location::SameFlow(p) => Some(p),
            Location::Ipv4 { packet_id, .. } => Some(packet_id),
            Location::Ipv6 { packet_id, .. } => Some(packet_id),
            Location::Mpeg2Ts { .. } => None,
            Location::Mpeg2TsIpv6 { .. } => None,
            Location::Url(_) => None,
        }
    }
}
