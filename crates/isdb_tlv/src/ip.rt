// What TLV packets carry: IPv4 and IPv6 packets, header-compressed IP packets (ARIB STD-B32 Part 3, 3.7), and the UDP
// datagram inside. Beside them the wire check, which judges an IPv4 datagram as RFC 791 and RFC 768 do.
// Translated from ip.rs of isdb-rs (Apache-2.0, see NOTICE) and changed.
ghost use Rattle.std.specs.Prelude.{◌≡◌, drop};
ghost use Rattle.isdb_tlv.specs.Ip.{flow4, flow6, ipv4_of, ipv6_of, partial_ipv4, partial_ipv6, header_id, compressed_of, wire_of, letter_of};

use crate::bytes;

// An address as a number; one of 16 bytes as two halves, the high one first.
#[derive(Clone, Copy, Debug, PartialEq, Eq, Hash)]
pub enum Address {
    V4(u32),
    V6(u64, u64),
}

// A UDP flow: source and destination address and port.
#[derive(Clone, Copy, Debug, PartialEq, Eq, Hash)]
pub struct Flow {
    pub src: Address,
    pub dst: Address,
    pub sport: u16,
    pub dport: u16,
}

// A UDP datagram: its payload runs from start to the end of the packet's data.
#[derive(Clone, Copy)]
pub struct Datagram {
    pub context: Option<u16>,
    pub flow: Option<Flow>,
    pub start: usize,
}

// Why a packet's IP content could not be read.
#[derive(Clone, Copy, Debug, PartialEq, Eq)]
pub enum IpError {
    // Shorter than its headers.
    Truncated,
    // Not UDP: the protocol or next header.
    NotUdp(u8),
    // An unknown header type of a compressed packet.
    HeaderType(u8),
    // Another version of IP.
    Version(u8),
}

impl Datagram {
    // The payload, a part of the packet's data b.
    pub fn payload(self, b: &[u8]) -> &[u8]
        ensures { result.now ≡ drop self.start b.now }
    {
        let start = self.start;
        bytes::rest(b, start)
    }
}

// Addresses of 4 bytes at src and dst, the ports at ports and 2 behind.
fn flow_v4(b: &[u8], src: u8, dst: u8, ports: u8) -> Flow
    ensures { result ≡ flow4 b.now src dst ports }
{
    let at = ports as usize;
    Flow {
        src: Address::V4(bytes::get_u32(b, src as usize)),
        dst: Address::V4(bytes::get_u32(b, dst as usize)),
        sport: bytes::get_u16(b, at),
        dport: bytes::get_u16(b, at + 2),
    }
}

// Addresses of 16 bytes.
fn flow_v6(b: &[u8], src: u8, dst: u8, ports: u8) -> Flow
    ensures { result ≡ flow6 b.now src dst ports }
{
    let s = src as usize;
    let d = dst as usize;
    let at = ports as usize;
    Flow {
        src: Address::V6(bytes::get_u64(b, s), bytes::get_u64(b, s + 8)),
        dst: Address::V6(bytes::get_u64(b, d), bytes::get_u64(b, d + 8)),
        sport: bytes::get_u16(b, at),
        dport: bytes::get_u16(b, at + 2),
    }
}

// An uncompressed IPv4 packet that carries UDP.
#[tactic(auto, unfolding(crate::specs::Ip::ipv4_of))]
pub fn ipv4(b: &[u8]) -> Result<Datagram, IpError>
    ensures { result ≡ ipv4_of b.now }
{
    if b.len() < 20 {
        return Err(IpError::Truncated);
    }
    let first = b[0];
    let version = first / 16;
    if version != 4 {
        return Err(IpError::Version(version));
    }
    let protocol = b[9];
    if protocol != 17 {
        return Err(IpError::NotUdp(protocol));
    }
    let udp = first % 16 * 4;
    let start = udp as usize + 8;
    if b.len() < start {
        return Err(IpError::Truncated);
    }
    Ok(Datagram {
        context: None,
        flow: Some(flow_v4(b, 12, 16, udp)),
        start,
    })
}

// An uncompressed IPv6 packet that carries UDP, without extension headers.
#[tactic(auto, unfolding(crate::specs::Ip::ipv6_of))]
pub fn ipv6(b: &[u8]) -> Result<Datagram, IpError>
    ensures { result ≡ ipv6_of b.now }
{
    if b.len() < 40 {
        return Err(IpError::Truncated);
    }
    let version = b[0] / 16;
    if version != 6 {
        return Err(IpError::Version(version));
    }
    let next_header = b[6];
    if next_header != 17 {
        return Err(IpError::NotUdp(next_header));
    }
    if b.len() < 48 {
        return Err(IpError::Truncated);
    }
    Ok(Datagram {
        context: None,
        flow: Some(flow_v6(b, 8, 24, 40)),
        start: 48,
    })
}

// Header type 20h: 16 bytes of an IPv4 header and the ports.
#[tactic(auto, unfolding(crate::specs::Ip::partial_ipv4))]
fn partial_ipv4(b: &[u8], context: u16) -> Result<Datagram, IpError>
    ensures { result ≡ partial_ipv4 b.now context }
{
    if b.len() < 23 {
        return Err(IpError::Truncated);
    }
    let protocol = b[10];
    if protocol != 17 {
        return Err(IpError::NotUdp(protocol));
    }
    Ok(Datagram {
        context: Some(context),
        flow: Some(flow_v4(b, 11, 15, 19)),
        start: 23,
    })
}

// Header type 60h: 38 bytes of an IPv6 header and the ports.
#[tactic(auto, unfolding(crate::specs::Ip::partial_ipv6))]
fn partial_ipv6(b: &[u8], context: u16) -> Result<Datagram, IpError>
    ensures { result ≡ partial_ipv6 b.now context }
{
    if b.len() < 45 {
        return Err(IpError::Truncated);
    }
    let next_header = b[7];
    if next_header != 17 {
        return Err(IpError::NotUdp(next_header));
    }
    Ok(Datagram {
        context: Some(context),
        flow: Some(flow_v6(b, 9, 25, 41)),
        start: 45,
    })
}

// Header type 21h: an identification of 2 bytes.
#[tactic(auto, unfolding(crate::specs::Ip::header_id))]
fn header_id(b: &[u8], context: u16) -> Result<Datagram, IpError>
    ensures { result ≡ header_id b.now context }
{
    if b.len() < 5 {
        return Err(IpError::Truncated);
    }
    Ok(Datagram {
        context: Some(context),
        flow: None,
        start: 5,
    })
}

// A header-compressed IP packet.
#[tactic(auto, unfolding(crate::specs::Ip::compressed_of))]
pub fn compressed(b: &[u8]) -> Result<Datagram, IpError>
    ensures { result ≡ compressed_of b.now }
{
    if b.len() < 3 {
        return Err(IpError::Truncated);
    }
    let context = bytes::get_u16(b, 0) / 16;
    let header_type = b[2];
    match header_type {
        0x20 => partial_ipv4(b, context),
        0x60 => partial_ipv6(b, context),
        0x21 => header_id(b, context),
        0x61 => Ok(Datagram {
            context: Some(context),
            flow: None,
            start: 3,
        }),
        _ => Err(IpError::HeaderType(header_type)),
    }
}

// The wire check's answer: good, or the first failing test by its letter.
#[derive(Clone, Copy, Debug, PartialEq, Eq)]
pub enum Wire {
    Good,
    A,
    B,
    C,
    D,
    E,
}

impl Wire {
    // The letter of a failing test, 0 for good. By name: no one would look for a letter under u8::from.
    pub fn letter(self) -> u8
        ensures { result ≡ letter_of self }
    {
        match self {
            Wire::Good => 0,
            Wire::A => b'a',
            Wire::B => b'b',
            Wire::C => b'c',
            Wire::D => b'd',
            Wire::E => b'e',
        }
    }
}

// An IPv4 datagram as a router and a UDP receiver would judge it, checksums aside.
#[tactic(auto, unfolding(crate::specs::Ip::wire_of))]
pub fn wire_check(b: &[u8]) -> Wire
    ensures { result ≡ wire_of b.now }
{
    if b.len() < 20 {
        return Wire::A;
    }
    let first = b[0];
    if first / 16 != 4 {
        return Wire::A;
    }
    let ihl = (first % 16) as usize;
    if ihl < 5 {
        return Wire::B;
    }
    let header = ihl * 4;
    let total = bytes::get_u16(b, 2) as usize;
    if b.len() < total {
        return Wire::C;
    }
    if total < header + 8 {
        return Wire::C;
    }
    if b[9] != 17 {
        return Wire::D;
    }
    let udp_length = bytes::get_u16(b, header + 4) as usize;
    if udp_length != total - header {
        return Wire::E;
    }
    Wire::Good
}
