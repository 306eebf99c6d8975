// The calls on locations and descriptors, and on the entries of a descriptor's body.
ghost use Rattle.std.specs.Prelude.{◌≡◌, drop};
ghost use Rattle.isdb_tlv.specs.Crc.{crc_of};
ghost use Rattle.isdb_tlv.specs.Guards.{◌≠?◌};
ghost use Rattle.isdb_mmt.specs.Formats.Desc.{step_at, descriptor_of, service_at, genre_at};
ghost use Rattle.isdb_mmt.specs.Formats.Location.{location_of};
ghost use Rattle.isdb_mmt.specs.Formats.Nit.{tlv_step_at, frequency_of};
ghost use Rattle.isdb_mmt.specs.Formats.Ntp.{Seconds};
ghost use Rattle.isdb_mmt.specs.Formats.Timestamp.{timestamp_at, mpu_at, unit_step};
ghost use Rattle.isdb_host.specs.Values.{Reply, Replied};
ghost use Rattle.isdb_host.specs.Descriptors.{genre_numbers, listed_service_numbers, sized_numbers, timestamp_numbers, tlv_numbers, flow_numbers, ts_numbers, url_numbers, location_said, descriptor_said, tlv_said, frequency_said};
ghost use Rattle.isdb_host.specs.Descriptors.{extended_numbers, service_numbers, short_event_numbers, decode_said};
ghost use Rattle.isdb_host.specs.Descriptors.{timestamp_said, mpu_said, access_unit_numbers, access_unit_said, listed_service_said, genre_said, head_of};

use crate::values::{Told, found};
use crate::{fields, values};
use isdb_mmt::desc::{Descriptor, Genre, Language, ListedService, Step};
use isdb_mmt::location::Location;
use isdb_mmt::part::Part;
use isdb_mmt::table::nit::TlvDescriptor;
use isdb_mmt::table::{mpt, nit};
use isdb_mmt::timestamp::{AccessUnit, Extended, ExtendedMpu, MpuPresentation};
use isdb_mmt::walk_step::WalkStep;
use isdb_mmt::{desc, maybe, ntp, timestamp};
use isdb_tlv::crc;
use isdb_tlv::ip::Address;

// A location of type 0, 1 or 2.
fn says_flow(
    v: &mut [u64; 16],
    kind: u64,
    src: Address,
    dst: Address,
    port: u16,
    id: u16,
    size: usize,
) -> u8
    ensures { Replied (Reply.says (flow_numbers kind src dst port id size)) result v.old v.new }
{
    values::says(
        v,
        &[
            kind,
            fields::address_high(src),
            fields::address_low(src),
            fields::address_high(dst),
            fields::address_low(dst),
            port as u64,
            id as u64,
            0,
            0,
            0,
            0,
            0,
            size as u64,
        ],
    )
}

// A location of type 3 or 4.
fn says_ts(
    v: &mut [u64; 16],
    kind: u64,
    port: u16,
    network: u16,
    stream: u16,
    pid: u16,
    size: usize,
) -> u8
    ensures { Replied (Reply.says (ts_numbers kind port network stream pid size)) result v.old v.new }
{
    values::says(
        v,
        &[
            kind,
            0,
            0,
            0,
            0,
            port as u64,
            0,
            network as u64,
            stream as u64,
            pid as u64,
            0,
            0,
            size as u64,
        ],
    )
}

fn says_url(v: &mut [u64; 16], url: Part, size: usize) -> u8
    ensures { Replied (Reply.says (url_numbers url size)) result v.old v.new }
{
    let start = url.start as u64;
    let length = url.length as u64;
    values::says(
        v,
        &[5, 0, 0, 0, 0, 0, 0, 0, 0, 0, start, length, size as u64],
    )
}

impl Told for (Location, usize) {
    ghost numbers = { sized_numbers };

    fn told(self, v: &mut [u64; 16]) -> u8 {
        let (l, size) = self;
        match l {
            Location::SameFlow(id) => says_flow(v, 0, Address::V4(0), Address::V4(0), 0, id, size),
            Location::Ipv4 {
                src,
                dst,
                port,
                packet_id: id,
            } => says_flow(v, 1, Address::V4(src), Address::V4(dst), port, id, size),
            Location::Ipv6 {
                src_high,
                src_low,
                dst_high,
                dst_low,
                port,
                packet_id,
            } => says_flow(
                v,
                2,
                Address::V6(src_high, src_low),
                Address::V6(dst_high, dst_low),
                port,
                packet_id,
                size,
            ),
            Location::Mpeg2Ts {
                network_id,
                ts_id,
                pid,
            } => says_ts(v, 3, 0, network_id, ts_id, pid, size),
            Location::Mpeg2TsIpv6 { port, pid } => says_ts(v, 4, port, 0, 0, pid, size),
            Location::Url(url) => says_url(v, url, size),
        }
    }
}

// The location at a place of a table or of a descriptor's body.
#[unsafe(no_mangle)]
pub extern "C" fn isdb_location_at(t: &[u8], at: usize, v: &mut [u64; 16]) -> u8
    ensures { Replied (location_said (location_of (drop at t.now))) result v.old v.new }
{
    found(mpt::location_at(t, at), values::MALFORMED, v)
}

fn descriptor_said(r: Step, v: &mut [u64; 16]) -> u8
    ensures { Replied (descriptor_said r) result v.old v.new }
{
    match r {
        Step::End => values::NOTHING,
        Step::Broken(_) => values::MALFORMED,
        Step::Raw { tag, body, next } => values::says(
            v,
            &[
                tag as u64,
                body.start as u64,
                body.length as u64,
                next as u64,
            ],
        ),
    }
}

// The descriptor at a place of a loop.
#[unsafe(no_mangle)]
pub extern "C" fn isdb_descriptor_at(b: &[u8], at: usize, v: &mut [u64; 16]) -> u8
    ensures { Replied (descriptor_said (step_at b.now at)) result v.old v.new }
{
    descriptor_said(desc::next(b, at), v)
}

impl Told for (TlvDescriptor, usize) {
    ghost numbers = { tlv_numbers };

    fn told(self, v: &mut [u64; 16]) -> u8 {
        let (d, next) = self;
        values::says(
            v,
            &[
                d.tag as u64,
                d.body.start as u64,
                d.body.length as u64,
                next as u64,
            ],
        )
    }
}

// The TLV-SI descriptor at a place of a TLV-NIT's loop.
#[unsafe(no_mangle)]
pub extern "C" fn isdb_tlv_at(b: &[u8], at: usize, v: &mut [u64; 16]) -> u8
    ensures { Replied (tlv_said (tlv_step_at b.now at)) result v.old v.new }
{
    found(nit::next_tlv(b, at), values::NOTHING, v)
}

// The frequency of a satellite delivery system descriptor, a TLV-SI descriptor of tag 43h.
#[unsafe(no_mangle)]
pub extern "C" fn isdb_frequency_khz(tag: u8, body: &[u8], v: &mut [u64; 16]) -> u8
    ensures { Replied (frequency_said (frequency_of tag body.now)) result v.old v.new }
{
    found(nit::satellite_frequency_khz(tag, body), values::NOTHING, v)
}

fn says_extended(v: &mut [u64; 16], e: Extended) -> u8
    ensures { Replied (Reply.says (extended_numbers e)) result v.old v.new }
{
    values::says(
        v,
        &[
            2,
            maybe::given(e.timescale),
            e.timescale.unwrap_or(0) as u64,
            maybe::given(e.default_pts_offset),
            e.default_pts_offset.unwrap_or(0) as u64,
            u64::from(e.own_pts_offset),
            e.start as u64,
        ],
    )
}

fn says_short_event(v: &mut [u64; 16], l: Language, name: Part, text: Part) -> u8
    ensures { Replied (Reply.says (short_event_numbers l name text)) result v.old v.new }
{
    values::says(
        v,
        &[
            8,
            l.first as u64,
            l.second as u64,
            l.third as u64,
            name.start as u64,
            name.length as u64,
            text.start as u64,
            text.length as u64,
        ],
    )
}

fn says_service(v: &mut [u64; 16], kind: u8, provider: Part, name: Part) -> u8
    ensures { Replied (Reply.says (service_numbers kind provider name)) result v.old v.new }
{
    values::says(
        v,
        &[
            6,
            kind as u64,
            provider.start as u64,
            provider.length as u64,
            name.start as u64,
            name.length as u64,
        ],
    )
}

fn decode_said(r: Descriptor, v: &mut [u64; 16]) -> u8
    ensures { Replied (decode_said r) result v.old v.new }
{
    match r {
        Descriptor::Other { .. } => values::says(v, &[0]),
        Descriptor::MpuTimestamp => values::says(v, &[1]),
        Descriptor::ExtendedTimestamp(e) => says_extended(v, e),
        Descriptor::AccessControl {
            ca_system_id,
            location,
        } => values::says(v, &[3, ca_system_id as u64, maybe::given(location)]),
        Descriptor::Scrambler {
            layer_type,
            system_id,
        } => values::says(v, &[4, layer_type as u64, system_id as u64]),
        Descriptor::StreamIdentifier { component_tag } => values::says(
            v,
            &[5, component_tag as u64],
        ),
        Descriptor::Service {
            service_type,
            provider,
            name,
        } => says_service(v, service_type, provider, name),
        Descriptor::ServiceList => values::says(v, &[7]),
        Descriptor::ShortEvent {
            language,
            name,
            text,
        } => says_short_event(v, language, name, text),
        Descriptor::Content => values::says(v, &[9]),
        Descriptor::Hevc {
            profile_idc,
            tier,
            level_idc,
        } => values::says(
            v,
            &[10, profile_idc as u64, u64::from(tier), level_idc as u64],
        ),
        Descriptor::BroadcasterName(p) => values::says(v, &[11, p.start as u64, p.length as u64]),
    }
}

// What a descriptor of a tag is.
#[unsafe(no_mangle)]
pub extern "C" fn isdb_decode(tag: u16, body: &[u8], v: &mut [u64; 16]) -> u8
    ensures { Replied (decode_said (descriptor_of tag body.now)) result v.old v.new }
{
    decode_said(Descriptor::decode(tag, body), v)
}

impl Told for (MpuPresentation, usize) {
    ghost numbers = { timestamp_numbers };

    fn told(self, v: &mut [u64; 16]) -> u8 {
        let (x, next) = self;
        values::says(
            v,
            &[
                x.mpu_sequence_number as u64,
                x.presentation_time,
                next as u64,
            ],
        )
    }
}

// The entry at a place of an MPU timestamp descriptor.
#[unsafe(no_mangle)]
pub extern "C" fn isdb_timestamp_at(body: &[u8], at: usize, v: &mut [u64; 16]) -> u8
    ensures { Replied (timestamp_said (timestamp_at body.now at)) result v.old v.new }
{
    found(timestamp::next_timestamp(body, at), values::NOTHING, v)
}

fn mpu_said(r: WalkStep<ExtendedMpu>, v: &mut [u64; 16]) -> u8
    ensures { Replied (mpu_said r) result v.old v.new }
{
    match r {
        WalkStep::End => values::NOTHING,
        WalkStep::Malformed => values::MALFORMED,
        WalkStep::Entry(m, next) => {
            values::says(
                v,
                &[
                    m.mpu_sequence_number as u64,
                    m.leap_indicator as u64,
                    m.decoding_time_offset as u64,
                    m.access_units as u64,
                    m.units.start as u64,
                    m.units.length as u64,
                    next as u64,
                ],
            )
        }
    }
}

// The MPU at a place of an extended timestamp descriptor; own says whether its access units have PTS offsets of their own.
#[unsafe(no_mangle)]
pub extern "C" fn isdb_mpu_at(body: &[u8], own: u8, at: usize, v: &mut [u64; 16]) -> u8
    ensures { Replied (mpu_said (mpu_at body.now (own ≠? 0) at)) result v.old v.new }
{
    mpu_said(timestamp::next_mpu(body, own != 0, at), v)
}

impl Told for (AccessUnit, usize) {
    ghost numbers = { access_unit_numbers };

    fn told(self, v: &mut [u64; 16]) -> u8 {
        let (u, next) = self;
        values::says(
            v,
            &[
                u.dts_pts_offset as u64,
                maybe::given(u.pts_offset),
                u.pts_offset.unwrap_or(0) as u64,
                next as u64,
            ],
        )
    }
}

// The head of an extended timestamp descriptor, as far as its access units need it.
fn head_of(given: u8, offset: u16, own: u8) -> Extended
    ensures { result ≡ head_of given offset own }
{
    Extended {
        timescale: None,
        default_pts_offset: (given != 0).then_some(offset),
        own_pts_offset: own != 0,
        start: 0,
    }
}

// The access unit at a place of an MPU's units; the other numbers are those of the descriptor's head.
#[unsafe(no_mangle)]
pub extern "C" fn isdb_access_unit_at(
    units: &[u8],
    default_given: u8,
    default_pts_offset: u16,
    own: u8,
    at: usize,
    v: &mut [u64; 16],
) -> u8
    ensures { Replied (access_unit_said (unit_step units.now (head_of default_given default_pts_offset own) at)) result v.old v.new }
{
    found(
        timestamp::next_access_unit(units, head_of(default_given, default_pts_offset, own), at),
        values::NOTHING,
        v,
    )
}

impl Told for (ListedService, usize) {
    ghost numbers = { listed_service_numbers };

    fn told(self, v: &mut [u64; 16]) -> u8 {
        let (x, next) = self;
        values::says(
            v,
            &[x.service_id as u64, x.service_type as u64, next as u64],
        )
    }
}

// The entry at a place of a service list.
#[unsafe(no_mangle)]
pub extern "C" fn isdb_listed_service_at(body: &[u8], at: usize, v: &mut [u64; 16]) -> u8
    ensures { Replied (listed_service_said (service_at body.now at)) result v.old v.new }
{
    found(desc::next_service(body, at), values::NOTHING, v)
}

impl Told for (Genre, usize) {
    ghost numbers = { genre_numbers };

    fn told(self, v: &mut [u64; 16]) -> u8 {
        let (x, next) = self;
        values::says(
            v,
            &[
                x.level_1 as u64,
                x.level_2 as u64,
                x.user as u64,
                next as u64,
            ],
        )
    }
}

// The genre at a place of a content descriptor.
#[unsafe(no_mangle)]
pub extern "C" fn isdb_genre_at(body: &[u8], at: usize, v: &mut [u64; 16]) -> u8
    ensures { Replied (genre_said (genre_at body.now at)) result v.old v.new }
{
    found(desc::next_genre(body, at), values::NOTHING, v)
}

// The CRC of some bytes: 0 over a whole section, its own CRC included.
#[unsafe(no_mangle)]
pub extern "C" fn isdb_crc32(b: &[u8]) -> u32
    ensures { result ≡ crc_of b.now }
{
    crc::crc32(b)
}

// The seconds since the Unix epoch of an NTP timestamp.
#[unsafe(no_mangle)]
pub extern "C" fn isdb_ntp_to_unix(t: u64) -> f64
    ensures { Seconds t result }
{
    ntp::ntp_to_unix(t)
}
