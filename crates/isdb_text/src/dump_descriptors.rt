// Locations and descriptors, as `feeddump` writes them.
ghost use Rattle.std.specs.Prelude.{◌≡◌};
ghost use Rattle.isdb_text.specs.Text.{Wrote, bytes_as_hex};
ghost use Rattle.isdb_mmt.specs.Formats.Part.{part_of};
ghost use Rattle.isdb_text.specs.DumpDescriptors.{access_control_text, address_text, broadcaster_name_text};
ghost use Rattle.isdb_text.specs.DumpDescriptors.{ca_location_text, content_text, descriptor_line, descriptor_text};
ghost use Rattle.isdb_text.specs.DumpDescriptors.{descriptors_text, extended_text, genres_text, hevc_text};
ghost use Rattle.isdb_text.specs.DumpDescriptors.{ipv6_text, language_of, location_text, mpu_text, mpus_text};
ghost use Rattle.isdb_text.specs.DumpDescriptors.{other_text, service_list_of, service_text, services_text};
ghost use Rattle.isdb_text.specs.DumpDescriptors.{short_event_text, timestamp_list, timestamps_text, tlv_line};
ghost use Rattle.isdb_text.specs.DumpDescriptors.{tlv_text, tlvs_text, maybe_text, unit_text};
ghost use Rattle.isdb_text.specs.DumpDescriptors.{units_text, url_text};
ghost use Rattle.isdb_text.specs.DumpDescriptors.{comma as comma_of};

use crate::{fill, text};
use isdb_mmt::desc::{Descriptor, Language, Step};
use isdb_mmt::location::Location;
use isdb_mmt::part::Part;
use isdb_mmt::table::nit;
use isdb_mmt::timestamp::{AccessUnit, Extended};
use isdb_mmt::walk_step::WalkStep;
use isdb_mmt::{desc, timestamp};
use isdb_tlv::bytes;
use isdb_tlv::ip::Address;

// A number that may be absent.
pub fn maybe(out: &mut [u8], at: usize, n: Option<u64>) -> usize
    ensures { Wrote out.old at (maybe_text n) out.new result }
{
    match n {
        None => text::put(out, at, b"none"),
        Some(x) => text::decimal(out, at, x),
    }
}

// A part of some bytes, as HEX.
pub fn part_hex(out: &mut [u8], at: usize, b: &[u8], p: Part) -> usize
    ensures { Wrote out.old at (bytes_as_hex (part_of b.now p)) out.new result }
{
    text::hex(out, at, p.of(b))
}

// An address, two digits a byte.
#[tactic(auto, using(crate::proofs::Written::writing))]
pub fn address(out: &mut [u8], at: usize, a: Address) -> usize
    ensures { Wrote out.old at (address_text a) out.new result }
{
    match a {
        Address::V4(n) => text::hex_digits(out, at, n as u64, 8),
        Address::V6(high, low) => {
            let p = text::hex_digits(out, at, high, 16);
            text::hex_digits(out, p, low, 16)
        }
    }
}

fn ipv6(out: &mut [u8], at: usize, src: Address, dst: Address, port: u16, id: u16) -> usize
    ensures { Wrote out.old at (ipv6_text src dst port id) out.new result }
{
    let mut p = text::put(out, at, b"ipv6 ");
    p = address(out, p, src);
    p = text::put(out, p, b" ");
    p = address(out, p, dst);
    fill::fill(out, p, b" # #", &[port as u64, id as u64])
}

#[tactic(auto, using(crate::proofs::Written::writing), unfolding(crate::specs::DumpDescriptors::url_text))]
fn url(out: &mut [u8], at: usize, b: &[u8], place: Part) -> usize
    ensures { Wrote out.old at (url_text b.now place) out.new result }
{
    let p = text::put(out, at, b"url ");
    part_hex(out, p, b, place)
}

// A location whose first byte is that of b.
pub fn location(out: &mut [u8], at: usize, b: &[u8], l: Location) -> usize
    ensures { Wrote out.old at (location_text b.now l) out.new result }
{
    match l {
        Location::SameFlow(id) => fill::fill(out, at, b"same_flow #", &[id as u64]),
        Location::Ipv4 {
            src,
            dst,
            port,
            packet_id: id,
        } => {
            let values = [src as u64, dst as u64, port as u64, id as u64];
            fill::fill(out, at, b"ipv4 %%%%%%%% %%%%%%%% # #", &values)
        }
        Location::Ipv6 {
            src_high: sh,
            src_low: sl,
            dst_high: dh,
            dst_low: dl,
            port,
            packet_id: id,
        } => ipv6(out, at, Address::V6(sh, sl), Address::V6(dh, dl), port, id),
        Location::Mpeg2Ts {
            network_id: n,
            ts_id: t,
            pid,
        } => fill::fill(
            out,
            at,
            b"mpeg2_ts # # %%%%",
            &[n as u64, t as u64, pid as u64],
        ),
        Location::Mpeg2TsIpv6 { port, pid } => {
            fill::fill(out, at, b"mpeg2_ts_ipv6 # %%%%", &[port as u64, pid as u64])
        }
        Location::Url(place) => url(out, at, b, place),
    }
}

// The comma before an item of a list, but for the first.
fn comma(out: &mut [u8], at: usize, first: usize, i: usize) -> usize
    ensures { Wrote out.old at (comma_of first i) out.new result }
{
    if first < i {
        text::put_byte(out, at, b',')
    } else {
        text::place(out, at)
    }
}

// The entries of an MPU timestamp.
fn timestamps(out: &mut [u8], at: usize, b: &[u8]) -> usize
    ensures { Wrote out.old at (timestamps_text b.now) out.new result }
{
    if b.len() < 12 {
        return text::put_byte(out, at, b'-');
    }
    let mut p = text::place(out, at);
    let mut i = 0;
    for _ in 0..b.len() {
        let Some((x, next)) = timestamp::next_timestamp(b, i) else {
            break;
        };
        p = comma(out, p, 0, i);
        let values = [x.mpu_sequence_number as u64, x.presentation_time];
        p = fill::fill(out, p, b"#:%%%%%%%%%%%%%%%%", &values);
        i = next;
    }
    p
}

// The entries of a service list, of MMT-SI or TLV-SI.
pub fn services(out: &mut [u8], at: usize, b: &[u8]) -> usize
    ensures { Wrote out.old at (services_text b.now) out.new result }
{
    if b.len() < 3 {
        return text::put_byte(out, at, b'-');
    }
    let mut p = text::place(out, at);
    let mut i = 0;
    for _ in 0..b.len() {
        let Some((x, next)) = desc::next_service(b, i) else {
            break;
        };
        p = comma(out, p, 0, i);
        let values = [x.service_id as u64, x.service_type as u64];
        p = fill::fill(out, p, b"#:#", &values);
        i = next;
    }
    p
}

// The genres of a content descriptor.
fn genres(out: &mut [u8], at: usize, b: &[u8]) -> usize
    ensures { Wrote out.old at (genres_text b.now) out.new result }
{
    if b.len() < 2 {
        return text::put_byte(out, at, b'-');
    }
    let mut p = text::place(out, at);
    let mut i = 0;
    for _ in 0..b.len() {
        let Some((x, next)) = desc::next_genre(b, i) else {
            break;
        };
        p = comma(out, p, 0, i);
        let values = [x.level_1 as u64, x.level_2 as u64, x.user as u64];
        p = fill::fill(out, p, b"#:#:#", &values);
        i = next;
    }
    p
}

fn access_unit(out: &mut [u8], at: usize, u: AccessUnit) -> usize
    ensures { Wrote out.old at (unit_text u) out.new result }
{
    let p = fill::fill(out, at, b"#/", &[u.dts_pts_offset as u64]);
    maybe(out, p, u.pts_offset.map(u64::from))
}

// The access units of an MPU.
fn access_units(out: &mut [u8], at: usize, units: &[u8], e: Extended) -> usize
    ensures { Wrote out.old at (units_text units.now e) out.new result }
{
    if units.len() < 1 {
        return text::put_byte(out, at, b'-');
    }
    let mut p = text::place(out, at);
    let mut i = 0;
    // A cursor: where the next one stands is known once this one is read.
    for _ in 0..units.len() {
        let Some((u, next)) = timestamp::next_access_unit(units, e, i) else {
            break;
        };
        p = comma(out, p, 0, i);
        p = access_unit(out, p, u);
        i = next;
    }
    p
}

#[tactic(auto, using(crate::proofs::Written::writing), unfolding(crate::specs::DumpDescriptors::mpu_text))]
fn mpu_text(
    out: &mut [u8],
    at: usize,
    mpu: u32,
    leap: u8,
    offset: u16,
    units: &[u8],
    e: Extended,
) -> usize
    ensures { Wrote out.old at (mpu_text mpu leap offset units.now e) out.new result }
{
    let values = [mpu as u64, leap as u64, offset as u64];
    let mut p = fill::fill(out, at, b"[# # # ", &values);
    p = access_units(out, p, units, e);
    text::put(out, p, b"]")
}

// The MPUs of an extended timestamp.
fn mpus(out: &mut [u8], at: usize, b: &[u8], e: Extended) -> usize
    ensures { Wrote out.old at (mpus_text b.now e) out.new result }
{
    let start = e.start;
    if b.len() <= start {
        return text::put_byte(out, at, b'-');
    }
    let mut p = text::place(out, at);
    let mut i = start;
    for _ in 0..b.len() {
        // A step has three cases, and two of them end the list.
        match timestamp::next_mpu(b, e.own_pts_offset, i) {
            WalkStep::End | WalkStep::Malformed => break,
            WalkStep::Entry(m, next) => {
                p = comma(out, p, start, i);
                p = mpu_text(
                    out,
                    p,
                    m.mpu_sequence_number,
                    m.leap_indicator,
                    m.decoding_time_offset,
                    m.units.of(b),
                    e,
                );
                i = next;
            }
        }
    }
    p
}

fn extended(out: &mut [u8], at: usize, b: &[u8], e: Extended) -> usize
    ensures { Wrote out.old at (extended_text b.now e) out.new result }
{
    let mut p = text::put(out, at, b"extended_timestamp timescale ");
    p = maybe(out, p, e.timescale.map(u64::from));
    p = text::put(out, p, b" default_pts_offset ");
    p = maybe(out, p, e.default_pts_offset.map(u64::from));
    p = text::put(out, p, b" mpus ");
    mpus(out, p, b, e)
}

fn ca_location(out: &mut [u8], at: usize, b: &[u8], l: Option<Location>) -> usize
    ensures { Wrote out.old at (ca_location_text b.now l) out.new result }
{
    match l {
        None => text::put(out, at, b"none"),
        Some(l) => location(out, at, b, l),
    }
}

fn access_control(out: &mut [u8], at: usize, b: &[u8], ca: u16, l: Option<Location>) -> usize
    ensures { Wrote out.old at (access_control_text b.now ca l) out.new result }
{
    let p = fill::fill(out, at, b"access_control # location ", &[ca as u64]);
    ca_location(out, p, bytes::rest(b, 2), l)
}

fn service(out: &mut [u8], at: usize, b: &[u8], kind: u8, provider: Part, name: Part) -> usize
    ensures { Wrote out.old at (service_text b.now kind provider name) out.new result }
{
    let mut p = fill::fill(out, at, b"service # provider ", &[kind as u64]);
    p = part_hex(out, p, b, provider);
    p = text::put(out, p, b" name ");
    part_hex(out, p, b, name)
}

// The three bytes of a language as a number.
fn language_code(l: Language) -> u64
    ensures { result ≡ language_of l }
{
    (l.first as u64 * 256 + l.second as u64) * 256 + l.third as u64
}

fn short_event(out: &mut [u8], at: usize, b: &[u8], l: Language, name: Part, words: Part) -> usize
    ensures { Wrote out.old at (short_event_text b.now l name words) out.new result }
{
    let code = language_code(l);
    let mut p = fill::fill(out, at, b"short_event %%%%%% name ", &[code]);
    p = part_hex(out, p, b, name);
    p = text::put(out, p, b" text ");
    part_hex(out, p, b, words)
}

#[tactic(auto, using(crate::proofs::Written::writing), unfolding(crate::specs::DumpDescriptors::other_text))]
fn other(out: &mut [u8], at: usize, b: &[u8], tag: u16, body: Part) -> usize
    ensures { Wrote out.old at (other_text b.now tag body) out.new result }
{
    let p = fill::fill(out, at, b"other 0x%%%% ", &[tag as u64]);
    part_hex(out, p, b, body)
}

// A list behind its name.
#[tactic(auto, using(crate::proofs::Written::writing), unfolding(crate::specs::DumpDescriptors::timestamp_list))]
fn timestamp_list(out: &mut [u8], at: usize, b: &[u8]) -> usize
    ensures { Wrote out.old at (timestamp_list b.now) out.new result }
{
    let p = text::put(out, at, b"mpu_timestamp ");
    timestamps(out, p, b)
}

#[tactic(auto, using(crate::proofs::Written::writing), unfolding(crate::specs::DumpDescriptors::service_list_of))]
fn service_list(out: &mut [u8], at: usize, b: &[u8]) -> usize
    ensures { Wrote out.old at (service_list_of b.now) out.new result }
{
    let p = text::put(out, at, b"service_list ");
    services(out, p, b)
}

#[tactic(auto, using(crate::proofs::Written::writing), unfolding(crate::specs::DumpDescriptors::content_text))]
fn content(out: &mut [u8], at: usize, b: &[u8]) -> usize
    ensures { Wrote out.old at (content_text b.now) out.new result }
{
    let p = text::put(out, at, b"content ");
    genres(out, p, b)
}

#[tactic(auto, unfolding(crate::specs::DumpDescriptors::hevc_text))]
fn hevc(out: &mut [u8], at: usize, profile: u8, tier: bool, level: u8) -> usize
    ensures { Wrote out.old at (hevc_text profile tier level) out.new result }
{
    let values = [profile as u64, u64::from(tier), level as u64];
    fill::fill(out, at, b"hevc # # #", &values)
}

#[tactic(auto, using(crate::proofs::Written::writing), unfolding(crate::specs::DumpDescriptors::broadcaster_name_text))]
fn broadcaster_name(out: &mut [u8], at: usize, b: &[u8], name: Part) -> usize
    ensures { Wrote out.old at (broadcaster_name_text b.now name) out.new result }
{
    let p = text::put(out, at, b"broadcaster_name ");
    part_hex(out, p, b, name)
}

// A descriptor with the body b.
pub fn descriptor(out: &mut [u8], at: usize, b: &[u8], d: Descriptor) -> usize
    ensures { Wrote out.old at (descriptor_text b.now d) out.new result }
{
    match d {
        Descriptor::MpuTimestamp => timestamp_list(out, at, b),
        Descriptor::ExtendedTimestamp(e) => extended(out, at, b, e),
        Descriptor::AccessControl {
            ca_system_id: ca,
            location: l,
        } => access_control(out, at, b, ca, l),
        Descriptor::Scrambler {
            layer_type: x,
            system_id: y,
        } => fill::fill(out, at, b"scrambler # #", &[x as u64, y as u64]),
        Descriptor::StreamIdentifier { component_tag: t } => {
            fill::fill(out, at, b"stream_identifier #", &[t as u64])
        }
        Descriptor::Service {
            service_type: t,
            provider,
            name,
        } => service(out, at, b, t, provider, name),
        Descriptor::ServiceList => service_list(out, at, b),
        Descriptor::ShortEvent {
            language: l,
            name,
            text: t,
        } => short_event(out, at, b, l, name, t),
        Descriptor::Content => content(out, at, b),
        Descriptor::Hevc {
            profile_idc: p,
            tier: t,
            level_idc: l,
        } => hevc(out, at, p, t, l),
        Descriptor::BroadcasterName(n) => broadcaster_name(out, at, b, n),
        Descriptor::Other { tag, body } => other(out, at, b, tag, body),
    }
}

fn descriptor_line(out: &mut [u8], at: usize, pad: &[u8], tag: u16, b: &[u8]) -> usize
    ensures { Wrote out.old at (descriptor_line pad.now tag b.now) out.new result }
{
    let mut p = text::put(out, at, pad);
    p = text::put(out, p, b"descriptor ");
    p = descriptor(out, p, b, Descriptor::decode(tag, b));
    text::put(out, p, b"\n")
}

// The descriptors of a loop, each on a line of its own behind some space.
pub fn descriptors(out: &mut [u8], at: usize, pad: &[u8], b: &[u8]) -> usize
    ensures { Wrote out.old at (descriptors_text pad.now b.now) out.new result }
{
    let mut p = text::place(out, at);
    let mut i = 0;
    for _ in 0..b.len() {
        // A step has three cases, and two of them end the list.
        match desc::next(b, i) {
            Step::End | Step::Broken(_) => break,
            Step::Raw { tag, body, next } => {
                p = descriptor_line(out, p, pad, tag, body.of(b));
                i = next;
            }
        }
    }
    p
}

// What the body of a TLV-SI descriptor says, by its tag.
#[tactic(auto, unfolding(crate::specs::DumpDescriptors::tlv_text))]
fn tlv_text(out: &mut [u8], at: usize, tag: u8, b: &[u8]) -> usize
    ensures { Wrote out.old at (tlv_text tag b.now) out.new result }
{
    match tag {
        0x41 => {
            let p = text::put(out, at, b" service_list ");
            services(out, p, b)
        }
        0x40 => {
            let p = text::put(out, at, b" network_name ");
            text::hex(out, p, b)
        }
        0x43 => {
            let p = text::put(out, at, b" frequency_khz ");
            maybe(out, p, nit::satellite_frequency_khz(tag, b))
        }
        _ => text::place(out, at),
    }
}

fn tlv_line(out: &mut [u8], at: usize, pad: &[u8], tag: u8, b: &[u8]) -> usize
    ensures { Wrote out.old at (tlv_line pad.now tag b.now) out.new result }
{
    let mut p = text::put(out, at, pad);
    p = fill::fill(out, p, b"descriptor 0x%% ", &[tag as u64]);
    p = text::hex(out, p, b);
    p = tlv_text(out, p, tag, b);
    text::put(out, p, b"\n")
}

// The descriptors of a TLV-SI loop, each on a line of its own behind some space.
pub fn tlv_descriptors(out: &mut [u8], at: usize, pad: &[u8], b: &[u8]) -> usize
    ensures { Wrote out.old at (tlvs_text pad.now b.now) out.new result }
{
    let mut p = text::place(out, at);
    let mut i = 0;
    for _ in 0..b.len() {
        let Some((d, next)) = nit::next_tlv(b, i) else {
            break;
        };
        p = tlv_line(out, p, pad, d.tag, d.body.of(b));
        i = next;
    }
    p
}
