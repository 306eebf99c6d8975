// Tables as text, a fact a line.
use crate::descriptors::{each, location, service_list};
use crate::print::{Hex, HexAddress, HexNumber, OrNone, field};
use crate::walk::Walk;
use isdb_mmt::desc::Descriptor;
use isdb_mmt::location::Location;
use isdb_mmt::table::amt::Amt;
use isdb_mmt::table::bit::Bit;
use isdb_mmt::table::eit::{Eit, Event};
use isdb_mmt::table::mpt::{Asset, Mpt};
use isdb_mmt::table::nit::Nit;
use isdb_mmt::table::plt::Plt;
use isdb_mmt::table::sdt::{Sdt, SdtService};
use isdb_mmt::table::section::{SectionError, SectionHeader};
use isdb_mmt::table::{amt, bit, eit, mpt, nit, plt, sdt, tot};
use isdb_mmt::walk_step::WalkStep;
use isdb_mmt::{desc, ntp};
use isdb_tlv::bytes;
use std::io;

// The bits of the seconds since the Unix epoch.
pub fn ntp_time(rt: &impl Print, t: u64) -> io::Result<()> {
    let x = ntp::ntp_to_unix(t);
    if x.is_nan() {
        return print!(rt; " no number");
    }
    field(rt, "unix_bits", HexNumber(x.to_bits(), 16))
}

pub fn located(rt: &impl Print, b: &[u8]) -> io::Result<()> {
    let Some((l, n)) = Location::parse(b) else {
        return print!(rt; " none");
    };
    field(rt, "took", n)?;
    location(rt, l, b)
}

pub fn descriptor_loop(rt: &impl Print, b: &[u8]) -> io::Result<()> {
    let c = desc::decode_all(b);
    field(rt, "descriptors", c.count)?;
    field(rt, "broken", c.broken as u8)?;
    each(rt, "  ", b)
}

fn failed(rt: &impl Print, e: SectionError) -> io::Result<()> {
    match e {
        SectionError::Truncated => print!(rt; " truncated"),
        SectionError::Crc => print!(rt; " crc"),
        SectionError::Malformed => print!(rt; " malformed"),
    }
}

// A section's header, and its table as `show` writes it from the body.
fn section<T: Drop, F: FnOnce(T, &[u8]) -> io::Result<()>>(
    rt: &impl Print,
    read: Result<(SectionHeader, T), SectionError>,
    b: &[u8],
    show: F,
) -> io::Result<()>
    requires { F.IsAlwaysCallable show }
{
    match read {
        Err(e) => failed(rt, e),
        Ok((h, t)) => {
            header(rt, h)?;
            show(t, h.body.of(b))
        }
    }
}

fn header(rt: &impl Print, h: SectionHeader) -> io::Result<()> {
    print!(rt;
        " header 0x{} {} {}",
        HexNumber(h.table_id as u64, 2),
        h.extension,
        h.section_number
    )?;
    field(rt, "last_section_number", h.last_section_number)?;
    field(rt, "version", h.version)?;
    field(rt, "current", h.current as u8)
}

pub fn mpt_table(rt: &impl Print, b: &[u8]) -> io::Result<()> {
    let p = mpt::parse(b);
    field(rt, "breaks", p.breaks)?;
    let Some(t) = p.mpt else {
        return print!(rt; " none");
    };
    mpt_head(rt, t, b)?;
    each(rt, "  ", t.descriptors.of(b))?;
    for a in Walk::new(t.start, t.assets as usize, |at| mpt::asset_at(b, at)) {
        asset(rt, a, b)?;
    }
    Ok(())
}

fn mpt_head(rt: &impl Print, t: Mpt, b: &[u8]) -> io::Result<()> {
    print!(rt; " table_id 0x{}", HexNumber(t.table_id as u64, 2))?;
    field(rt, "version", t.version)?;
    field(rt, "mode", t.mode)?;
    field(rt, "package_id", Hex(t.package_id.of(b)))?;
    print!(rt; " service_id {}", OrNone(t.service_id(b)))
}

fn asset(rt: &impl Print, a: Asset, b: &[u8]) -> io::Result<()> {
    let d = a.descriptors.of(b);
    asset_head(rt, a, b)?;
    print!(rt; " packet_id {}", OrNone(a.packet_id(b)))?;
    print!(rt; " component_tag {}", OrNone(mpt::component_tag(d)))?;
    let step = |at: usize| {
        mpt::location_at(b, at).map(|(l, taken)| ((l, at), at.wrapping_add(taken)))
    };
    for (l, at) in Walk::new(a.locations_start, a.locations as usize, step) {
        print!(rt; "\n    location")?;
        location(rt, l, bytes::rest(b, at))?;
    }
    each(rt, "    ", d)
}

fn asset_head(rt: &impl Print, a: Asset, b: &[u8]) -> io::Result<()> {
    print!(rt; "\n  asset")?;
    field(rt, "identifier_type", a.identifier_type)?;
    field(rt, "scheme", a.asset_id_scheme)?;
    field(rt, "id", Hex(a.asset_id.of(b)))?;
    field(rt, "type", HexNumber(a.asset_type as u64, 8))?;
    field(rt, "clock_relation", a.clock_relation as u8)
}

pub fn plt_table(rt: &impl Print, b: &[u8]) -> io::Result<()> {
    let Some(t) = plt::parse(b) else {
        return print!(rt; " none");
    };
    field(rt, "version", t.version)?;
    packages(rt, t, b)?;
    deliveries(rt, t, b)
}

fn packages(rt: &impl Print, t: Plt, b: &[u8]) -> io::Result<()> {
    for p in Walk::new(5, t.packages as usize, |at| plt::package_at(b, at)) {
        print!(rt; "\n  package {} location", Hex(p.package_id.of(b)))?;
        location(rt, p.location, bytes::rest(b, p.location_start))?;
    }
    Ok(())
}

fn deliveries(rt: &impl Print, t: Plt, b: &[u8]) -> io::Result<()> {
    let step = |at| plt::delivery_at(b, at);
    for d in Walk::new(t.deliveries_start, t.ip_deliveries as usize, step) {
        print!(rt; "\n  ip_delivery {}", d.transport_file_id)?;
        field(rt, "location_type", d.location_type)?;
    }
    Ok(())
}

pub fn eit_section(rt: &impl Print, b: &[u8]) -> io::Result<()> {
    let p = eit::parse(b);
    field(rt, "breaks", p.breaks)?;
    section(rt, p.result, b, |t, s| eit_table(rt, t, s))
}

fn eit_table(rt: &impl Print, t: Eit, s: &[u8]) -> io::Result<()> {
    field(rt, "tlv_stream_id", t.tlv_stream_id)?;
    field(rt, "original_network_id", t.original_network_id)?;
    field(
        rt,
        "segment_last_section_number",
        t.segment_last_section_number,
    )?;
    field(rt, "last_table_id", t.last_table_id)?;
    let step = |at| match eit::next_event(s, at) {
        WalkStep::Entry(e, next) => Some((e, next)),
        _ => None,
    };
    for e in Walk::new(6, t.events, step) {
        event(rt, e, s)?;
    }
    Ok(())
}

fn event(rt: &impl Print, e: Event, s: &[u8]) -> io::Result<()> {
    let d = e.descriptors.of(s);
    print!(rt; "\n  event {}", e.event_id)?;
    field(rt, "start", HexNumber(e.start, 10))?;
    field(rt, "duration", HexNumber(e.duration as u64, 6))?;
    status(rt, e.running_status, e.free_ca)?;
    print!(rt; " short_event")?;
    names(rt, eit::short_event(d).map(|(x, p)| (x, p.of(d))))?;
    each(rt, "    ", d)
}

fn status(rt: &impl Print, running_status: u8, free_ca: bool) -> io::Result<()> {
    field(rt, "running_status", running_status)?;
    field(rt, "free_ca", free_ca as u8)
}

// The texts of a short event or a service, the latter behind its type.
fn names(rt: &impl Print, found: Option<(Descriptor, &[u8])>) -> io::Result<()> {
    let Some((d, b)) = found else {
        return print!(rt; " none");
    };
    match d {
        Descriptor::ShortEvent {
            language: _,
            name,
            text,
        } => print!(rt; " {} {}", Hex(name.of(b)), Hex(text.of(b))),
        Descriptor::Service {
            service_type,
            provider,
            name,
        } => print!(rt;
            " {service_type} {} {}",
            Hex(provider.of(b)),
            Hex(name.of(b))
        ),
        _ => Ok(()),
    }
}

pub fn sdt_section(rt: &impl Print, b: &[u8]) -> io::Result<()> {
    let p = sdt::parse(b);
    field(rt, "breaks", p.breaks)?;
    section(rt, p.result, b, |t, s| sdt_table(rt, t, s))
}

fn sdt_table(rt: &impl Print, t: Sdt, s: &[u8]) -> io::Result<()> {
    field(rt, "original_network_id", t.original_network_id)?;
    let step = |at| match sdt::next_service(s, at) {
        WalkStep::Entry(e, next) => Some((e, next)),
        _ => None,
    };
    for e in Walk::new(3, t.services, step) {
        service(rt, e, s)?;
    }
    Ok(())
}

fn service(rt: &impl Print, e: SdtService, s: &[u8]) -> io::Result<()> {
    let d = e.descriptors.of(s);
    print!(rt; "\n  service {}", e.service_id)?;
    field(rt, "eit_user_defined_flags", e.eit_user_defined_flags)?;
    field(rt, "eit_schedule", e.eit_schedule as u8)?;
    field(rt, "eit_present_following", e.eit_present_following as u8)?;
    status(rt, e.running_status, e.free_ca)?;
    print!(rt; " service")?;
    names(rt, sdt::service_descriptor(d).map(|(x, p)| (x, p.of(d))))?;
    each(rt, "    ", d)
}

pub fn tot_section(rt: &impl Print, b: &[u8]) -> io::Result<()> {
    let p = tot::parse(b);
    field(rt, "breaks", p.breaks)?;
    match p.result {
        Err(e) => failed(rt, e),
        Ok(t) => {
            field(rt, "jst", HexNumber(t.jst, 10))?;
            each(rt, "  ", t.descriptors.of(b))
        }
    }
}

pub fn bit_section(rt: &impl Print, b: &[u8]) -> io::Result<()> {
    let p = bit::parse(b);
    field(rt, "breaks", p.breaks)?;
    section(rt, p.result, b, |t, s| bit_table(rt, t, s))
}

fn bit_table(rt: &impl Print, t: Bit, s: &[u8]) -> io::Result<()> {
    let d = t.descriptors;
    field(
        rt,
        "broadcast_view_propriety",
        t.broadcast_view_propriety as u8,
    )?;
    each(rt, "  ", d.of(s))?;
    let step = |at| match bit::next_broadcaster(s, at) {
        WalkStep::Entry(e, next) => Some((e, next)),
        _ => None,
    };
    for e in Walk::new(d.start.wrapping_add(d.length), t.broadcasters, step) {
        print!(rt; "\n  broadcaster {}", e.broadcaster_id)?;
        each(rt, "    ", e.descriptors.of(s))?;
    }
    Ok(())
}

pub fn nit_section(rt: &impl Print, b: &[u8]) -> io::Result<()> {
    section(rt, nit::parse(b), b, |t, s| nit_table(rt, t, s))
}

fn nit_table(rt: &impl Print, t: Nit, s: &[u8]) -> io::Result<()> {
    tlv_each(rt, "  ", t.descriptors.of(s))?;
    let streams = t.loop_part.of(s);
    let step = |at| match nit::next_stream(streams, at) {
        WalkStep::Entry(e, next) => Some((e, next)),
        _ => None,
    };
    for e in Walk::new(0, t.streams, step) {
        print!(rt; "\n  stream {}", e.tlv_stream_id)?;
        field(rt, "original_network_id", e.original_network_id)?;
        tlv_each(rt, "    ", e.descriptors.of(streams))?;
    }
    Ok(())
}

fn tlv_each(rt: &impl Print, pad: &str, b: &[u8]) -> io::Result<()> {
    let step = |at| nit::next_tlv(b, at);
    for d in Walk::new(0, b.len(), step) {
        let body = d.body.of(b);
        print!(rt;
            "\n{pad}descriptor 0x{} {}",
            HexNumber(d.tag as u64, 2),
            Hex(body)
        )?;
        tlv_descriptor(rt, d.tag, body)?;
    }
    Ok(())
}

// What the descriptors say that have a reading.
fn tlv_descriptor(rt: &impl Print, tag: u8, b: &[u8]) -> io::Result<()> {
    if let Some(p) = nit::service_list(tag, b) {
        service_list(rt, p.of(b))?;
    }
    if let Some(p) = nit::network_name(tag, b) {
        field(rt, "network_name", Hex(p.of(b)))?;
    }
    if tag == 0x43 {
        print!(rt;
            " frequency_khz {}",
            OrNone(nit::satellite_frequency_khz(tag, b))
        )?;
    }
    Ok(())
}

pub fn amt_section(rt: &impl Print, b: &[u8]) -> io::Result<()> {
    section(rt, amt::parse(b), b, |t, s| amt_table(rt, t, s))
}

fn amt_table(rt: &impl Print, t: Amt, s: &[u8]) -> io::Result<()> {
    for e in Walk::new(2, t.services as usize, |at| amt::service_at(s, at)) {
        print!(rt; "\n  service {}", e.service_id)?;
        print!(rt; " src {}", HexAddress(e.src))?;
        field(rt, "mask", e.src_mask)?;
        print!(rt; " dst {}", HexAddress(e.dst))?;
        field(rt, "mask", e.dst_mask)?;
    }
    Ok(())
}
