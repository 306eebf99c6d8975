// Where a packet leads, by its kind and its IP headers.
// Translated from decoder.rs of isdb-rs (Apache-2.0, see NOTICE) and changed.
ghost use Rattle.std.specs.Prelude.{◌≡◌};
ghost use Rattle.isdb_tlv.specs.Tlv.{packet_type};
ghost use Rattle.isdb_mmt.specs.Pushes.Route.{flow_route, ip_route, route_of, time_in};

use isdb_tlv::ip::{Datagram, Flow, IpError};
use isdb_tlv::tlv::PacketType;
use isdb_tlv::{bytes, ip};

// A null packet and one of an undefined kind are told apart, though both are only counted.
#[derive(Clone, Copy)]
pub(crate) enum Route {
    // IP data that cannot be read.
    IpError,
    // To port 123: where the UDP payload starts.
    Time(usize),
    // Where an MMTP packet is to start.
    Mmtp(usize),
    // A transmission control signal.
    Control,
    Null,
    Other,
}

// A datagram without addresses has no port.
fn flow_route(at: usize, flow: Option<Flow>) -> Route
    ensures { result ≡ flow_route at flow }
{
    match flow {
        Some(f) if f.dport == 123 => Route::Time(at),
        _ => Route::Mmtp(at),
    }
}

fn ip_route(x: Result<Datagram, IpError>) -> Route
    ensures { result ≡ ip_route x }
{
    match x {
        Err(e) => Route::IpError,
        Ok(d) => { flow_route(d.start, d.flow) }
    }
}

pub(crate) fn find_route(kind: u8, b: &[u8]) -> Route
    ensures { result ≡ route_of b.now (packet_type kind) }
{
    match PacketType::from(kind) {
        PacketType::Ipv4 => ip_route(ip::ipv4(b)),
        PacketType::Ipv6 => ip_route(ip::ipv6(b)),
        PacketType::Compressed => ip_route(ip::compressed(b)),
        PacketType::Control => Route::Control,
        PacketType::Null => Route::Null,
        PacketType::Other(v) => Route::Other,
    }
}

// The transmit timestamp of an NTP packet (RFC 5905, 7.3), where it is there.
pub(crate) fn time_in(p: &[u8]) -> Option<u64>
    ensures { result ≡ time_in p.now }
{
    if p.len() < 48 {
        return None;
    }
    Some(bytes::get_u64(p, 40))
}
