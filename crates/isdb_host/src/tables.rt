// The calls on tables: what a table's bytes hold, and the walks of its parts.
ghost use Rattle.std.specs.Prelude.{◌≡◌};
ghost use Rattle.isdb_mmt.specs.Formats.Amt.{amt_of, service_at};
ghost use Rattle.isdb_mmt.specs.Formats.Bit.{bit_of, broadcaster_step};
ghost use Rattle.isdb_mmt.specs.Formats.Eit.{eit_of, event_step};
ghost use Rattle.isdb_mmt.specs.Formats.Mpt.{mpt_of, asset_at_of};
ghost use Rattle.isdb_mmt.specs.Formats.Nit.{nit_of, stream_step};
ghost use Rattle.isdb_mmt.specs.Formats.Plt.{plt_of, package_at_of, delivery_at_of};
ghost use Rattle.isdb_mmt.specs.Formats.Sdt.{sdt_of, service_step};
ghost use Rattle.isdb_mmt.specs.Formats.Tot.{tot_of};
ghost use Rattle.isdb_host.specs.Values.{Reply, Replied};
ghost use Rattle.isdb_host.specs.Tables.{delivery_numbers, amt_service_numbers, package_numbers, plt_numbers, headed, mpt_said, asset_said, plt_said, package_said, delivery_said, eit_said, sdt_said, bit_said, nit_said, amt_said, tot_said};
ghost use Rattle.isdb_host.specs.Tables.{event_said, service_said, broadcaster_said, stream_said, flow_said};

use crate::values::{Told, found};
use crate::{fields, values};
use isdb_mmt::maybe;
use isdb_mmt::table::amt::{Amt, AmtService};
use isdb_mmt::table::bit::{Bit, Broadcaster};
use isdb_mmt::table::eit::{Eit, Event};
use isdb_mmt::table::mpt::{Asset, MptParsed};
use isdb_mmt::table::nit::{Nit, NitStream};
use isdb_mmt::table::plt::{IpDelivery, Package, Plt};
use isdb_mmt::table::sdt::{Sdt, SdtService};
use isdb_mmt::table::section::{Parsed, SectionError, SectionHeader};
use isdb_mmt::table::tot::Tot;
use isdb_mmt::table::{amt, bit, eit, mpt, nit, plt, sdt, tot};
use isdb_mmt::walk_step::WalkStep;

// Not `Told`: the service id is read from the table's bytes; the same of an asset.
fn mpt_said(r: MptParsed, t: &[u8], v: &mut [u64; 16]) -> u8
    ensures { Replied (mpt_said t.now r) result v.old v.new }
{
    let MptParsed { mpt, breaks } = r;
    let Some(m) = mpt else {
        return values::MALFORMED;
    };
    let service = m.service_id(t);
    values::says(
        v,
        &[
            m.table_id as u64,
            m.version as u64,
            m.mode as u64,
            m.package_id.start as u64,
            m.package_id.length as u64,
            m.descriptors.start as u64,
            m.descriptors.length as u64,
            m.assets as u64,
            m.start as u64,
            maybe::given(service),
            service.unwrap_or(0) as u64,
            breaks as u64,
        ],
    )
}

// An MPT, its table id first.
#[unsafe(no_mangle)]
pub extern "C" fn isdb_mpt_parse(t: &[u8], v: &mut [u64; 16]) -> u8
    ensures { Replied (mpt_said t.now (mpt_of t.now)) result v.old v.new }
{
    mpt_said(mpt::parse(t), t, v)
}

fn asset_said(r: Option<(Asset, usize)>, t: &[u8], v: &mut [u64; 16]) -> u8
    ensures { Replied (asset_said t.now r) result v.old v.new }
{
    let Some((a, next)) = r else {
        return values::MALFORMED;
    };
    let packet_id = a.packet_id(t);
    values::says(
        v,
        &[
            a.identifier_type as u64,
            a.asset_id_scheme as u64,
            a.asset_id.start as u64,
            a.asset_id.length as u64,
            a.asset_type as u64,
            u64::from(a.clock_relation),
            a.locations as u64,
            a.locations_start as u64,
            a.descriptors.start as u64,
            a.descriptors.length as u64,
            maybe::given(packet_id),
            packet_id.unwrap_or(0) as u64,
            next as u64,
        ],
    )
}

// The asset at a place of an MPT.
#[unsafe(no_mangle)]
pub extern "C" fn isdb_asset_at(t: &[u8], at: usize, v: &mut [u64; 16]) -> u8
    ensures { Replied (asset_said t.now (asset_at_of t.now at)) result v.old v.new }
{
    asset_said(mpt::asset_at(t, at), t, v)
}

impl Told for Plt {
    ghost numbers = { plt_numbers };

    fn told(self, v: &mut [u64; 16]) -> u8 {
        values::says(
            v,
            &[
                self.version as u64,
                self.packages as u64,
                self.ip_deliveries as u64,
                self.deliveries_start as u64,
            ],
        )
    }
}

// A PLT, its table id first.
#[unsafe(no_mangle)]
pub extern "C" fn isdb_plt_parse(t: &[u8], v: &mut [u64; 16]) -> u8
    ensures { Replied (plt_said (plt_of t.now)) result v.old v.new }
{
    found(plt::parse(t), values::MALFORMED, v)
}

impl Told for (Package, usize) {
    ghost numbers = { package_numbers };

    fn told(self, v: &mut [u64; 16]) -> u8 {
        let (p, next) = self;
        values::says(
            v,
            &[
                p.package_id.start as u64,
                p.package_id.length as u64,
                p.location_start as u64,
                next as u64,
            ],
        )
    }
}

// The package at a place of a PLT.
#[unsafe(no_mangle)]
pub extern "C" fn isdb_package_at(t: &[u8], at: usize, v: &mut [u64; 16]) -> u8
    ensures { Replied (package_said (package_at_of t.now at)) result v.old v.new }
{
    found(plt::package_at(t, at), values::MALFORMED, v)
}

impl Told for (IpDelivery, usize) {
    ghost numbers = { delivery_numbers };

    fn told(self, v: &mut [u64; 16]) -> u8 {
        let (d, next) = self;
        values::says(
            v,
            &[
                d.transport_file_id as u64,
                d.location_type as u64,
                next as u64,
            ],
        )
    }
}

// The IP delivery at a place of a PLT.
#[unsafe(no_mangle)]
pub extern "C" fn isdb_delivery_at(t: &[u8], at: usize, v: &mut [u64; 16]) -> u8
    ensures { Replied (delivery_said (delivery_at_of t.now at)) result v.old v.new }
{
    found(plt::delivery_at(t, at), values::MALFORMED, v)
}

// Answers a section's header, and these numbers behind it, eight at most; all sixteen are listed, a loop over the eight is no plainer.
fn says_section(v: &mut [u64; 16], h: SectionHeader, more: &[u64]) -> u8
    ensures { Replied (Reply.says (headed h more.now)) result v.old v.new }
{
    values::says(
        v,
        &[
            h.table_id as u64,
            h.extension as u64,
            h.version as u64,
            u64::from(h.current),
            h.section_number as u64,
            h.last_section_number as u64,
            h.body.start as u64,
            h.body.length as u64,
            maybe::number_at(more, 0),
            maybe::number_at(more, 1),
            maybe::number_at(more, 2),
            maybe::number_at(more, 3),
            maybe::number_at(more, 4),
            maybe::number_at(more, 5),
            maybe::number_at(more, 6),
            maybe::number_at(more, 7),
        ],
    )
}

// The six sections are matched in place: four tell what lies beside the result too, and a generic function for that is no plainer.
fn eit_said(r: Parsed<(SectionHeader, Eit)>, v: &mut [u64; 16]) -> u8
    ensures { Replied (eit_said r) result v.old v.new }
{
    let Parsed { result, breaks } = r;
    match result {
        Err(e) => fields::reason(e),
        Ok((h, t)) => {
            says_section(
                v,
                h,
                &[
                    t.tlv_stream_id as u64,
                    t.original_network_id as u64,
                    t.segment_last_section_number as u64,
                    t.last_table_id as u64,
                    t.events as u64,
                    breaks as u64,
                ],
            )
        }
    }
}

// An MH-EIT section.
#[unsafe(no_mangle)]
pub extern "C" fn isdb_eit_parse(section: &[u8], v: &mut [u64; 16]) -> u8
    ensures { Replied (eit_said (eit_of section.now)) result v.old v.new }
{
    eit_said(eit::parse(section), v)
}

fn sdt_said(r: Parsed<(SectionHeader, Sdt)>, v: &mut [u64; 16]) -> u8
    ensures { Replied (sdt_said r) result v.old v.new }
{
    let Parsed { result, breaks } = r;
    match result {
        Err(e) => fields::reason(e),
        Ok((h, t)) => {
            says_section(
                v,
                h,
                &[
                    t.original_network_id as u64,
                    t.services as u64,
                    breaks as u64,
                ],
            )
        }
    }
}

// An MH-SDT section.
#[unsafe(no_mangle)]
pub extern "C" fn isdb_sdt_parse(section: &[u8], v: &mut [u64; 16]) -> u8
    ensures { Replied (sdt_said (sdt_of section.now)) result v.old v.new }
{
    sdt_said(sdt::parse(section), v)
}

fn bit_said(r: Parsed<(SectionHeader, Bit)>, v: &mut [u64; 16]) -> u8
    ensures { Replied (bit_said r) result v.old v.new }
{
    let Parsed { result, breaks } = r;
    match result {
        Err(e) => fields::reason(e),
        Ok((h, t)) => {
            says_section(
                v,
                h,
                &[
                    u64::from(t.broadcast_view_propriety),
                    t.descriptors.start as u64,
                    t.descriptors.length as u64,
                    t.broadcasters as u64,
                    breaks as u64,
                ],
            )
        }
    }
}

// An MH-BIT section.
#[unsafe(no_mangle)]
pub extern "C" fn isdb_bit_parse(section: &[u8], v: &mut [u64; 16]) -> u8
    ensures { Replied (bit_said (bit_of section.now)) result v.old v.new }
{
    bit_said(bit::parse(section), v)
}

fn nit_said(r: Result<(SectionHeader, Nit), SectionError>, v: &mut [u64; 16]) -> u8
    ensures { Replied (nit_said r) result v.old v.new }
{
    match r {
        Err(e) => fields::reason(e),
        Ok((h, t)) => {
            says_section(
                v,
                h,
                &[
                    t.descriptors.start as u64,
                    t.descriptors.length as u64,
                    t.loop_part.start as u64,
                    t.loop_part.length as u64,
                    t.streams as u64,
                ],
            )
        }
    }
}

// A TLV-NIT section.
#[unsafe(no_mangle)]
pub extern "C" fn isdb_nit_parse(section: &[u8], v: &mut [u64; 16]) -> u8
    ensures { Replied (nit_said (nit_of section.now)) result v.old v.new }
{
    nit_said(nit::parse(section), v)
}

fn amt_said(r: Result<(SectionHeader, Amt), SectionError>, v: &mut [u64; 16]) -> u8
    ensures { Replied (amt_said r) result v.old v.new }
{
    match r {
        Err(e) => fields::reason(e),
        Ok((h, t)) => says_section(v, h, &[t.services as u64]),
    }
}

// An AMT section.
#[unsafe(no_mangle)]
pub extern "C" fn isdb_amt_parse(section: &[u8], v: &mut [u64; 16]) -> u8
    ensures { Replied (amt_said (amt_of section.now)) result v.old v.new }
{
    amt_said(amt::parse(section), v)
}

fn tot_said(r: Parsed<Tot>, v: &mut [u64; 16]) -> u8
    ensures { Replied (tot_said r) result v.old v.new }
{
    let Parsed { result, breaks } = r;
    match result {
        Err(e) => fields::reason(e),
        Ok(t) => {
            values::says(
                v,
                &[
                    t.jst,
                    t.descriptors.start as u64,
                    t.descriptors.length as u64,
                    breaks as u64,
                ],
            )
        }
    }
}

// An MH-TOT section.
#[unsafe(no_mangle)]
pub extern "C" fn isdb_tot_parse(section: &[u8], v: &mut [u64; 16]) -> u8
    ensures { Replied (tot_said (tot_of section.now)) result v.old v.new }
{
    tot_said(tot::parse(section), v)
}

fn event_said(r: WalkStep<Event>, v: &mut [u64; 16]) -> u8
    ensures { Replied (event_said r) result v.old v.new }
{
    match r {
        WalkStep::End => values::NOTHING,
        WalkStep::Malformed => values::MALFORMED,
        WalkStep::Entry(x, next) => {
            values::says(
                v,
                &[
                    x.event_id as u64,
                    x.start,
                    x.duration as u64,
                    x.running_status as u64,
                    u64::from(x.free_ca),
                    x.descriptors.start as u64,
                    x.descriptors.length as u64,
                    next as u64,
                ],
            )
        }
    }
}

// The event at a place of an MH-EIT section's body.
#[unsafe(no_mangle)]
pub extern "C" fn isdb_event_at(body: &[u8], at: usize, v: &mut [u64; 16]) -> u8
    ensures { Replied (event_said (event_step body.now at)) result v.old v.new }
{
    event_said(eit::next_event(body, at), v)
}

fn service_said(r: WalkStep<SdtService>, v: &mut [u64; 16]) -> u8
    ensures { Replied (service_said r) result v.old v.new }
{
    match r {
        WalkStep::End => values::NOTHING,
        WalkStep::Malformed => values::MALFORMED,
        WalkStep::Entry(x, next) => {
            values::says(
                v,
                &[
                    x.service_id as u64,
                    x.eit_user_defined_flags as u64,
                    u64::from(x.eit_schedule),
                    u64::from(x.eit_present_following),
                    x.running_status as u64,
                    u64::from(x.free_ca),
                    x.descriptors.start as u64,
                    x.descriptors.length as u64,
                    next as u64,
                ],
            )
        }
    }
}

// The service at a place of an MH-SDT section's body.
#[unsafe(no_mangle)]
pub extern "C" fn isdb_service_at(body: &[u8], at: usize, v: &mut [u64; 16]) -> u8
    ensures { Replied (service_said (service_step body.now at)) result v.old v.new }
{
    service_said(sdt::next_service(body, at), v)
}

fn broadcaster_said(r: WalkStep<Broadcaster>, v: &mut [u64; 16]) -> u8
    ensures { Replied (broadcaster_said r) result v.old v.new }
{
    match r {
        WalkStep::End => values::NOTHING,
        WalkStep::Malformed => values::MALFORMED,
        WalkStep::Entry(x, next) => {
            values::says(
                v,
                &[
                    x.broadcaster_id as u64,
                    x.descriptors.start as u64,
                    x.descriptors.length as u64,
                    next as u64,
                ],
            )
        }
    }
}

// The broadcaster at a place of an MH-BIT section's body.
#[unsafe(no_mangle)]
pub extern "C" fn isdb_broadcaster_at(body: &[u8], at: usize, v: &mut [u64; 16]) -> u8
    ensures { Replied (broadcaster_said (broadcaster_step body.now at)) result v.old v.new }
{
    broadcaster_said(bit::next_broadcaster(body, at), v)
}

fn stream_said(r: WalkStep<NitStream>, v: &mut [u64; 16]) -> u8
    ensures { Replied (stream_said r) result v.old v.new }
{
    match r {
        WalkStep::End => values::NOTHING,
        WalkStep::Malformed => values::MALFORMED,
        WalkStep::Entry(x, next) => {
            values::says(
                v,
                &[
                    x.tlv_stream_id as u64,
                    x.original_network_id as u64,
                    x.descriptors.start as u64,
                    x.descriptors.length as u64,
                    next as u64,
                ],
            )
        }
    }
}

// The stream at a place of a TLV-NIT's loop of streams.
#[unsafe(no_mangle)]
pub extern "C" fn isdb_stream_at(streams: &[u8], at: usize, v: &mut [u64; 16]) -> u8
    ensures { Replied (stream_said (stream_step streams.now at)) result v.old v.new }
{
    stream_said(nit::next_stream(streams, at), v)
}

impl Told for (AmtService, usize) {
    ghost numbers = { amt_service_numbers };

    fn told(self, v: &mut [u64; 16]) -> u8 {
        let (x, next) = self;
        values::says(
            v,
            &[
                x.service_id as u64,
                fields::wide_address(x.src),
                fields::address_high(x.src),
                fields::address_low(x.src),
                x.src_mask as u64,
                fields::address_high(x.dst),
                fields::address_low(x.dst),
                x.dst_mask as u64,
                next as u64,
            ],
        )
    }
}

// The flow of a service at a place of an AMT section's body.
#[unsafe(no_mangle)]
pub extern "C" fn isdb_flow_at(body: &[u8], at: usize, v: &mut [u64; 16]) -> u8
    ensures { Replied (flow_said (service_at body.now at)) result v.old v.new }
{
    found(amt::service_at(body, at), values::MALFORMED, v)
}
