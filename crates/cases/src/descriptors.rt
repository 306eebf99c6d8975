// Locations and descriptors as text.
use crate::print::{Hex, HexAddress, HexNumber, OrNone, field};
use crate::walk::Walk;
use isdb_mmt::desc::{Descriptor, Step};
use isdb_mmt::location::Location;
use isdb_mmt::timestamp::Extended;
use isdb_mmt::walk_step::WalkStep;
use isdb_mmt::{desc, timestamp};
use isdb_tlv::bytes;
use isdb_tlv::ip::Address;
use std::io;

// A location whose first byte is that of b, which a URL's place counts from.
pub fn location(rt: &impl Print, l: Location, b: &[u8]) -> io::Result<()> {
    match l {
        Location::SameFlow(id) => field(rt, "same_flow", id),
        Location::Ipv4 {
            src,
            dst,
            port,
            packet_id,
        } => print!(rt;
            " ipv4 {} {} {port} {packet_id}",
            HexNumber(src as u64, 8),
            HexNumber(dst as u64, 8)
        ),
        Location::Ipv6 {
            src_high,
            src_low,
            dst_high,
            dst_low,
            port,
            packet_id,
        } => {
            let src = HexAddress(Address::V6(src_high, src_low));
            let dst = HexAddress(Address::V6(dst_high, dst_low));
            print!(rt; " ipv6 {src} {dst} {port} {packet_id}")
        }
        Location::Mpeg2Ts {
            network_id,
            ts_id,
            pid,
        } => {
            field(rt, "mpeg2_ts", network_id)?;
            print!(rt; " {ts_id} {}", HexNumber(pid as u64, 4))
        }
        Location::Mpeg2TsIpv6 { port, pid } => {
            field(rt, "mpeg2_ts_ipv6", port)?;
            print!(rt; " {}", HexNumber(pid as u64, 4))
        }
        Location::Url(p) => field(rt, "url", Hex(p.of(b))),
    }
}

// The descriptors of a loop, each on a line of its own behind some space.
pub fn each(rt: &impl Print, pad: &str, b: &[u8]) -> io::Result<()> {
    let step = |at| match desc::next(b, at) {
        Step::Raw { tag, body, next } => Some(((tag, body), next)),
        _ => None,
    };
    for (tag, body) in Walk::new(0, b.len(), step) {
        print!(rt; "\n{pad}descriptor")?;
        descriptor(rt, Descriptor::decode(tag, body.of(b)), body.of(b))?;
    }
    Ok(())
}

fn descriptor(rt: &impl Print, d: Descriptor, b: &[u8]) -> io::Result<()> {
    match d {
        Descriptor::MpuTimestamp => timestamps(rt, b),
        Descriptor::ExtendedTimestamp(e) => extended(rt, e, b),
        Descriptor::AccessControl {
            ca_system_id,
            location,
        } => access_control(rt, ca_system_id, location, b),
        Descriptor::Scrambler {
            layer_type,
            system_id,
        } => {
            field(rt, "scrambler", layer_type)?;
            print!(rt; " {system_id}")
        }
        Descriptor::StreamIdentifier { component_tag } => {
            field(rt, "stream_identifier", component_tag)
        }
        Descriptor::Hevc {
            profile_idc,
            tier,
            level_idc,
        } => {
            field(rt, "hevc", profile_idc)?;
            print!(rt; " {} {level_idc}", tier as u8)
        }
        Descriptor::Other { tag, body } => print!(rt;
            " other 0x{} {}",
            HexNumber(tag as u64, 4),
            Hex(body.of(b))
        ),
        _ => service_descriptor(rt, d, b),
    }
}

// Those of services and events.
fn service_descriptor(rt: &impl Print, d: Descriptor, b: &[u8]) -> io::Result<()> {
    match d {
        Descriptor::Service {
            service_type,
            provider,
            name,
        } => {
            field(rt, "service", service_type)?;
            field(rt, "provider", Hex(provider.of(b)))?;
            field(rt, "name", Hex(name.of(b)))
        }
        Descriptor::ServiceList => service_list(rt, b),
        Descriptor::ShortEvent {
            language: l,
            name,
            text,
        } => {
            print!(rt; " short_event {}", Hex(&[l.first, l.second, l.third]))?;
            field(rt, "name", Hex(name.of(b)))?;
            field(rt, "text", Hex(text.of(b)))
        }
        Descriptor::Content => genres(rt, b),
        Descriptor::BroadcasterName(name) => field(rt, "broadcaster_name", Hex(name.of(b))),
        _ => Ok(()),
    }
}

fn access_control(
    rt: &impl Print,
    ca_system_id: u16,
    l: Option<Location>,
    b: &[u8],
) -> io::Result<()> {
    field(rt, "access_control", ca_system_id)?;
    print!(rt; " location")?;
    match l {
        None => print!(rt; " none"),
        Some(l) => location(rt, l, bytes::rest(b, 2)),
    }
}

// What stands before the entry of this number.
fn comma(i: usize) -> &'static str {
    if i == 0 { "" } else { "," }
}

fn timestamps(rt: &impl Print, b: &[u8]) -> io::Result<()> {
    print!(rt; " mpu_timestamp ")?;
    if b.len() < 12 {
        print!(rt; "-")?;
    }
    let step = |at| timestamp::next_timestamp(b, at);
    for (i, x) in Walk::new(0, b.len(), step).enumerate() {
        print!(rt;
            "{}{}:{}",
            comma(i),
            x.mpu_sequence_number,
            HexNumber(x.presentation_time, 16)
        )?;
    }
    Ok(())
}

// The entries of a service list, of MMT-SI or TLV-SI.
pub fn service_list(rt: &impl Print, b: &[u8]) -> io::Result<()> {
    print!(rt; " service_list ")?;
    if b.len() < 3 {
        print!(rt; "-")?;
    }
    let step = |at| desc::next_service(b, at);
    for (i, x) in Walk::new(0, b.len(), step).enumerate() {
        print!(rt; "{}{}:{}", comma(i), x.service_id, x.service_type)?;
    }
    Ok(())
}

fn genres(rt: &impl Print, b: &[u8]) -> io::Result<()> {
    print!(rt; " content ")?;
    if b.len() < 2 {
        print!(rt; "-")?;
    }
    let step = |at| desc::next_genre(b, at);
    for (i, x) in Walk::new(0, b.len(), step).enumerate() {
        print!(rt; "{}{}:{}:{}", comma(i), x.level_1, x.level_2, x.user)?;
    }
    Ok(())
}

fn extended(rt: &impl Print, e: Extended, b: &[u8]) -> io::Result<()> {
    print!(rt; " extended_timestamp timescale {}", OrNone(e.timescale))?;
    print!(rt;
        " default_pts_offset {} mpus ",
        OrNone(e.default_pts_offset)
    )?;
    if b.len() <= e.start {
        print!(rt; "-")?;
    }
    let step = |at| match timestamp::next_mpu(b, e.own_pts_offset, at) {
        WalkStep::Entry(m, next) => Some((m, next)),
        _ => None,
    };
    for (i, m) in Walk::new(e.start, b.len(), step).enumerate() {
        print!(rt;
            "{}[{} {} {} ",
            comma(i),
            m.mpu_sequence_number,
            m.leap_indicator,
            m.decoding_time_offset
        )?;
        access_units(rt, e, m.units.of(b))?;
        print!(rt; "]")?;
    }
    Ok(())
}

fn access_units(rt: &impl Print, e: Extended, units: &[u8]) -> io::Result<()> {
    if units.is_empty() {
        print!(rt; "-")?;
    }
    let step = |at| timestamp::next_access_unit(units, e, at);
    for (i, u) in Walk::new(0, units.len(), step).enumerate() {
        print!(rt; "{}{}/{}", comma(i), u.dts_pts_offset, OrNone(u.pts_offset))?;
    }
    Ok(())
}
