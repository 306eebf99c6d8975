// The kept tables, as `feeddump` writes them. A table that does not parse has no text.
ghost use Rattle.std.specs.Prelude.{◌+◌};
ghost use Rattle.isdb_mmt.specs.Formats.Section.{length12};
ghost use Rattle.isdb_text.specs.Text.{Wrote};
ghost use Rattle.isdb_text.specs.DumpTables.{amt_table, amt_text, asset_fields, asset_line, asset_text, assets_text};
ghost use Rattle.isdb_text.specs.DumpTables.{bit_table, bit_text, broadcaster_text, broadcasters_text};
ghost use Rattle.isdb_text.specs.DumpTables.{deliveries_text, eit_fields, eit_table, eit_text, event_text};
ghost use Rattle.isdb_text.specs.DumpTables.{events_text, flow_text, flows_text, key_text, location_line};
ghost use Rattle.isdb_text.specs.DumpTables.{locations_text, mpt_line, mpt_table, mpt_text, nit_table, nit_text};
ghost use Rattle.isdb_text.specs.DumpTables.{package_text, packages_text, plt_table, plt_text, sdt_table, sdt_text};
ghost use Rattle.isdb_text.specs.DumpTables.{service_text, services_text, stream_text, streams_text, tot_table};
ghost use Rattle.isdb_text.specs.DumpTables.{tot_text};

use crate::dump_descriptors::{address, descriptors, location, maybe, part_hex, tlv_descriptors};
use crate::{fill, text};
use isdb_mmt::location::Location;
use isdb_mmt::table::amt::{Amt, AmtService};
use isdb_mmt::table::bit::{Bit, Broadcaster};
use isdb_mmt::table::eit::{Eit, Event};
use isdb_mmt::table::mpt::{Asset, Mpt};
use isdb_mmt::table::nit::{Nit, NitStream};
use isdb_mmt::table::plt::{Package, Plt};
use isdb_mmt::table::sdt::{Sdt, SdtService};
use isdb_mmt::table::section::SectionHeader;
use isdb_mmt::table::tot::Tot;
use isdb_mmt::table::{amt, bit, eit, mpt, nit, plt, sdt, tot};
use isdb_mmt::walk_step::WalkStep;
use isdb_tlv::bytes;

// The key of a section's place, and the section's own header.
#[tactic(auto, unfolding(crate::specs::DumpTables::key_text))]
fn key_text(out: &mut [u8], at: usize, key: u32, h: SectionHeader) -> usize
    ensures { Wrote out.old at (key_text key h) out.new result }
{
    let values = [
        (key / 0x1000000) as u64,
        (key / 0x100 % 0x10000) as u64,
        (key % 0x100) as u64,
        h.table_id as u64,
        h.extension as u64,
        h.section_number as u64,
        h.last_section_number as u64,
        h.version as u64,
        u64::from(h.current),
    ];
    fill::fill(
        out,
        at,
        b"key 0x%% # # header 0x%% # # last_section_number # version # current #",
        &values,
    )
}

fn flow(out: &mut [u8], at: usize, f: AmtService) -> usize
    ensures { Wrote out.old at (flow_text f) out.new result }
{
    let mut p = fill::fill(out, at, b"  service # src ", &[f.service_id as u64]);
    p = address(out, p, f.src);
    p = fill::fill(out, p, b" mask # dst ", &[f.src_mask as u64]);
    p = address(out, p, f.dst);
    fill::fill(out, p, b" mask #\n", &[f.dst_mask as u64])
}

// The services of an AMT's body.
fn flows(out: &mut [u8], at: usize, s: &[u8], n: u16) -> usize
    ensures { Wrote out.old at (flows_text s.now n 2) out.new result }
{
    let mut p = text::place(out, at);
    let mut i = 2;
    // A cursor: where the next one stands is known once this one is read.
    for _ in 0..n {
        let Some((f, next)) = amt::service_at(s, i) else {
            break;
        };
        p = flow(out, p, f);
        i = next;
    }
    p
}

fn amt_table(out: &mut [u8], at: usize, key: u32, h: SectionHeader, t: Amt, s: &[u8]) -> usize
    ensures { Wrote out.old at (amt_table key h t s.now) out.new result }
{
    let mut p = text::put(out, at, b"amt ");
    p = key_text(out, p, key, h);
    p = text::put(out, p, b"\n");
    flows(out, p, s, t.services)
}

// A kept AMT, by the key of its place.
#[tactic(auto, unfolding(crate::specs::DumpTables::amt_text))]
pub fn amt_lines(out: &mut [u8], at: usize, key: u32, b: &[u8]) -> usize
    ensures { Wrote out.old at (amt_text key b.now) out.new result }
{
    match amt::parse(b) {
        Err(_) => text::place(out, at),
        Ok((h, t)) => { amt_table(out, at, key, h, t, h.body.of(b)) }
    }
}

#[tactic(auto, using(crate::proofs::Written::writing), unfolding(crate::specs::DumpTables::tot_table))]
fn tot_table(out: &mut [u8], at: usize, b: &[u8], t: Tot) -> usize
    ensures { Wrote out.old at (tot_table b.now t) out.new result }
{
    let p = fill::fill(out, at, b"tot jst %%%%%%%%%%\n", &[t.jst]);
    descriptors(out, p, b"  ", t.descriptors.of(b))
}

// The kept TOT.
#[tactic(auto, unfolding(crate::specs::DumpTables::tot_text))]
pub fn tot_lines(out: &mut [u8], at: usize, b: &[u8]) -> usize
    ensures { Wrote out.old at (tot_text b.now) out.new result }
{
    match tot::parse(b).result {
        Err(_) => text::place(out, at),
        Ok(t) => tot_table(out, at, b, t),
    }
}

fn sdt_service(out: &mut [u8], at: usize, s: &[u8], e: SdtService) -> usize
    ensures { Wrote out.old at (service_text s.now e) out.new result }
{
    let values = [
        e.service_id as u64,
        e.eit_user_defined_flags as u64,
        u64::from(e.eit_schedule),
        u64::from(e.eit_present_following),
        e.running_status as u64,
        u64::from(e.free_ca),
    ];
    let p = fill::fill(
        out,
        at,
        b"  service # eit_user_defined_flags # eit_schedule # eit_present_following # running_status # free_ca #\n",
        &values,
    );
    descriptors(out, p, b"    ", e.descriptors.of(s))
}

// The services of an SDT's body.
fn sdt_services(out: &mut [u8], at: usize, s: &[u8], n: usize) -> usize
    ensures { Wrote out.old at (services_text s.now n 3) out.new result }
{
    let mut p = text::place(out, at);
    let mut i = 3;
    for _ in 0..n {
        // A step has three cases, and two of them end the list.
        match sdt::next_service(s, i) {
            WalkStep::End | WalkStep::Malformed => break,
            WalkStep::Entry(e, next) => {
                p = sdt_service(out, p, s, e);
                i = next;
            }
        }
    }
    p
}

#[tactic(auto, using(crate::proofs::Written::writing), unfolding(crate::specs::DumpTables::sdt_table))]
fn sdt_table(out: &mut [u8], at: usize, key: u32, h: SectionHeader, t: Sdt, s: &[u8]) -> usize
    ensures { Wrote out.old at (sdt_table key h t s.now) out.new result }
{
    let mut p = text::put(out, at, b"sdt ");
    p = key_text(out, p, key, h);
    p = fill::fill(
        out,
        p,
        b" original_network_id #\n",
        &[t.original_network_id as u64],
    );
    sdt_services(out, p, s, t.services)
}

// A kept SDT, by the key of its place.
#[tactic(auto, unfolding(crate::specs::DumpTables::sdt_text))]
pub fn sdt_lines(out: &mut [u8], at: usize, key: u32, b: &[u8]) -> usize
    ensures { Wrote out.old at (sdt_text key b.now) out.new result }
{
    match sdt::parse(b).result {
        Err(_) => text::place(out, at),
        Ok((h, t)) => { sdt_table(out, at, key, h, t, h.body.of(b)) }
    }
}

fn event(out: &mut [u8], at: usize, s: &[u8], e: Event) -> usize
    ensures { Wrote out.old at (event_text s.now e) out.new result }
{
    let values = [
        e.event_id as u64,
        e.start,
        e.duration as u64,
        e.running_status as u64,
        u64::from(e.free_ca),
    ];
    let p = fill::fill(
        out,
        at,
        b"  event # start %%%%%%%%%% duration %%%%%% running_status # free_ca #\n",
        &values,
    );
    descriptors(out, p, b"    ", e.descriptors.of(s))
}

// The events of an EIT's body.
fn events(out: &mut [u8], at: usize, s: &[u8], n: usize) -> usize
    ensures { Wrote out.old at (events_text s.now n 6) out.new result }
{
    let mut p = text::place(out, at);
    let mut i = 6;
    for _ in 0..n {
        // A step has three cases, and two of them end the list.
        match eit::next_event(s, i) {
            WalkStep::End | WalkStep::Malformed => break,
            WalkStep::Entry(e, next) => {
                p = event(out, p, s, e);
                i = next;
            }
        }
    }
    p
}

#[tactic(auto, unfolding(crate::specs::DumpTables::eit_fields))]
fn eit_fields(out: &mut [u8], at: usize, t: Eit) -> usize
    ensures { Wrote out.old at (eit_fields t) out.new result }
{
    let values = [
        t.tlv_stream_id as u64,
        t.original_network_id as u64,
        t.segment_last_section_number as u64,
        t.last_table_id as u64,
    ];
    fill::fill(
        out,
        at,
        b" tlv_stream_id # original_network_id # segment_last_section_number # last_table_id #\n",
        &values,
    )
}

#[tactic(auto, using(crate::proofs::Written::writing), unfolding(crate::specs::DumpTables::eit_table))]
fn eit_table(out: &mut [u8], at: usize, key: u32, h: SectionHeader, t: Eit, s: &[u8]) -> usize
    ensures { Wrote out.old at (eit_table key h t s.now) out.new result }
{
    let mut p = text::put(out, at, b"eit ");
    p = key_text(out, p, key, h);
    p = eit_fields(out, p, t);
    events(out, p, s, t.events)
}

// A kept EIT, by the key of its place.
#[tactic(auto, unfolding(crate::specs::DumpTables::eit_text))]
pub fn eit_lines(out: &mut [u8], at: usize, key: u32, b: &[u8]) -> usize
    ensures { Wrote out.old at (eit_text key b.now) out.new result }
{
    match eit::parse(b).result {
        Err(_) => text::place(out, at),
        Ok((h, t)) => { eit_table(out, at, key, h, t, h.body.of(b)) }
    }
}

fn broadcaster(out: &mut [u8], at: usize, s: &[u8], e: Broadcaster) -> usize
    ensures { Wrote out.old at (broadcaster_text s.now e) out.new result }
{
    let p = fill::fill(out, at, b"  broadcaster #\n", &[e.broadcaster_id as u64]);
    descriptors(out, p, b"    ", e.descriptors.of(s))
}

// The broadcasters of a BIT's body, which stand behind the first descriptor loop.
fn broadcasters(out: &mut [u8], at: usize, s: &[u8], n: usize) -> usize
    ensures { Wrote out.old at (broadcasters_text s.now n (length12 s.now 0 + 2)) out.new result }
{
    let mut p = text::place(out, at);
    let mut i = bytes::get_u12(s, 0) as usize + 2;
    for _ in 0..n {
        // A step has three cases, and two of them end the list.
        match bit::next_broadcaster(s, i) {
            WalkStep::End | WalkStep::Malformed => break,
            WalkStep::Entry(e, next) => {
                p = broadcaster(out, p, s, e);
                i = next;
            }
        }
    }
    p
}

fn bit_table(out: &mut [u8], at: usize, key: u32, h: SectionHeader, t: Bit, s: &[u8]) -> usize
    ensures { Wrote out.old at (bit_table key h t s.now) out.new result }
{
    let mut p = text::put(out, at, b"bit ");
    p = key_text(out, p, key, h);
    let propriety = u64::from(t.broadcast_view_propriety);
    p = fill::fill(out, p, b" broadcast_view_propriety #\n", &[propriety]);
    p = descriptors(out, p, b"  ", t.descriptors.of(s));
    broadcasters(out, p, s, t.broadcasters)
}

// A kept BIT, by the key of its place.
#[tactic(auto, unfolding(crate::specs::DumpTables::bit_text))]
pub fn bit_lines(out: &mut [u8], at: usize, key: u32, b: &[u8]) -> usize
    ensures { Wrote out.old at (bit_text key b.now) out.new result }
{
    match bit::parse(b).result {
        Err(_) => text::place(out, at),
        Ok((h, t)) => { bit_table(out, at, key, h, t, h.body.of(b)) }
    }
}

#[tactic(auto, using(crate::proofs::Written::writing), unfolding(crate::specs::DumpTables::stream_text))]
fn stream(out: &mut [u8], at: usize, s: &[u8], e: NitStream) -> usize
    ensures { Wrote out.old at (stream_text s.now e) out.new result }
{
    let values = [e.tlv_stream_id as u64, e.original_network_id as u64];
    let p = fill::fill(out, at, b"  stream # original_network_id #\n", &values);
    tlv_descriptors(out, p, b"    ", e.descriptors.of(s))
}

// The streams of a NIT's loop of streams.
fn streams(out: &mut [u8], at: usize, s: &[u8], n: usize) -> usize
    ensures { Wrote out.old at (streams_text s.now n 0) out.new result }
{
    let mut p = text::place(out, at);
    let mut i = 0;
    for _ in 0..n {
        // A step has three cases, and two of them end the list.
        match nit::next_stream(s, i) {
            WalkStep::End | WalkStep::Malformed => break,
            WalkStep::Entry(e, next) => {
                p = stream(out, p, s, e);
                i = next;
            }
        }
    }
    p
}

fn nit_table(out: &mut [u8], at: usize, key: u32, h: SectionHeader, t: Nit, s: &[u8]) -> usize
    ensures { Wrote out.old at (nit_table key h t s.now) out.new result }
{
    let mut p = text::put(out, at, b"nit ");
    p = key_text(out, p, key, h);
    p = text::put(out, p, b"\n");
    p = tlv_descriptors(out, p, b"  ", t.descriptors.of(s));
    streams(out, p, t.loop_part.of(s), t.streams)
}

// A kept NIT, by the key of its place.
#[tactic(auto, unfolding(crate::specs::DumpTables::nit_text))]
pub fn nit_lines(out: &mut [u8], at: usize, key: u32, b: &[u8]) -> usize
    ensures { Wrote out.old at (nit_text key b.now) out.new result }
{
    match nit::parse(b) {
        Err(_) => text::place(out, at),
        Ok((h, t)) => { nit_table(out, at, key, h, t, h.body.of(b)) }
    }
}

fn package(out: &mut [u8], at: usize, b: &[u8], k: Package) -> usize
    ensures { Wrote out.old at (package_text b.now k) out.new result }
{
    let mut p = text::put(out, at, b"  package ");
    p = part_hex(out, p, b, k.package_id);
    p = text::put(out, p, b" location ");
    p = location(out, p, bytes::rest(b, k.location_start), k.location);
    text::put(out, p, b"\n")
}

// The packages of a PLT.
fn packages(out: &mut [u8], at: usize, s: &[u8], n: u8) -> usize
    ensures { Wrote out.old at (packages_text s.now n 5) out.new result }
{
    let mut p = text::place(out, at);
    let mut i = 5;
    // A cursor: where the next one stands is known once this one is read.
    for _ in 0..n {
        let Some((k, next)) = plt::package_at(s, i) else {
            break;
        };
        p = package(out, p, s, k);
        i = next;
    }
    p
}

// The IP deliveries of a PLT.
fn deliveries(out: &mut [u8], at: usize, s: &[u8], n: u8, start: usize) -> usize
    ensures { Wrote out.old at (deliveries_text s.now n start) out.new result }
{
    let mut p = text::place(out, at);
    let mut i = start;
    // A cursor: where the next one stands is known once this one is read.
    for _ in 0..n {
        let Some((d, next)) = plt::delivery_at(s, i) else {
            break;
        };
        let values = [d.transport_file_id as u64, d.location_type as u64];
        p = fill::fill(out, p, b"  ip_delivery # location_type #\n", &values);
        i = next;
    }
    p
}

fn plt_table(out: &mut [u8], at: usize, b: &[u8], t: Plt) -> usize
    ensures { Wrote out.old at (plt_table b.now t) out.new result }
{
    let mut p = fill::fill(out, at, b"plt version #\n", &[t.version as u64]);
    p = packages(out, p, b, t.packages);
    deliveries(out, p, b, t.ip_deliveries, t.deliveries_start)
}

// The kept PLT.
#[tactic(auto, unfolding(crate::specs::DumpTables::plt_text))]
pub fn plt_lines(out: &mut [u8], at: usize, b: &[u8]) -> usize
    ensures { Wrote out.old at (plt_text b.now) out.new result }
{
    match plt::parse(b) {
        None => text::place(out, at),
        Some(t) => plt_table(out, at, b, t),
    }
}

#[tactic(auto, using(crate::proofs::Written::writing), unfolding(crate::specs::DumpTables::location_line))]
fn location_line(out: &mut [u8], at: usize, b: &[u8], l: Location) -> usize
    ensures { Wrote out.old at (location_line b.now l) out.new result }
{
    let mut p = text::put(out, at, b"    location ");
    p = location(out, p, b, l);
    text::put(out, p, b"\n")
}

// The locations of an asset.
fn locations(out: &mut [u8], at: usize, s: &[u8], n: u8, start: usize) -> usize
    ensures { Wrote out.old at (locations_text s.now n start) out.new result }
{
    let mut p = text::place(out, at);
    let mut i = start;
    // A cursor: where the next one stands is known once this one is read.
    for _ in 0..n {
        let Some((l, taken)) = mpt::location_at(s, i) else {
            break;
        };
        p = location_line(out, p, bytes::rest(s, i), l);
        i += taken;
    }
    p
}

fn asset_fields(out: &mut [u8], at: usize, b: &[u8], a: Asset) -> usize
    ensures { Wrote out.old at (asset_fields b.now a) out.new result }
{
    let values = [a.identifier_type as u64, a.asset_id_scheme as u64];
    let mut p = fill::fill(out, at, b"  asset identifier_type # scheme # id ", &values);
    p = part_hex(out, p, b, a.asset_id);
    let more = [a.asset_type as u64, u64::from(a.clock_relation)];
    fill::fill(out, p, b" type %%%%%%%% clock_relation # packet_id ", &more)
}

fn asset_line(out: &mut [u8], at: usize, b: &[u8], a: Asset) -> usize
    ensures { Wrote out.old at (asset_line b.now a) out.new result }
{
    let mut p = asset_fields(out, at, b, a);
    p = maybe(out, p, a.packet_id(b).map(u64::from));
    p = text::put(out, p, b" component_tag ");
    p = maybe(
        out,
        p,
        mpt::component_tag(a.descriptors.of(b)).map(u64::from),
    );
    text::put(out, p, b"\n")
}

#[tactic(auto, using(crate::proofs::Written::writing), unfolding(crate::specs::DumpTables::asset_text))]
fn asset(out: &mut [u8], at: usize, b: &[u8], a: Asset) -> usize
    ensures { Wrote out.old at (asset_text b.now a) out.new result }
{
    let mut p = asset_line(out, at, b, a);
    p = locations(out, p, b, a.locations, a.locations_start);
    descriptors(out, p, b"    ", a.descriptors.of(b))
}

// The assets of an MPT.
fn assets(out: &mut [u8], at: usize, s: &[u8], n: u8, start: usize) -> usize
    ensures { Wrote out.old at (assets_text s.now n start) out.new result }
{
    let mut p = text::place(out, at);
    let mut i = start;
    // A cursor: where the next one stands is known once this one is read.
    for _ in 0..n {
        let Some((a, next)) = mpt::asset_at(s, i) else {
            break;
        };
        p = asset(out, p, s, a);
        i = next;
    }
    p
}

fn mpt_line(out: &mut [u8], at: usize, control: u32, b: &[u8], t: Mpt) -> usize
    ensures { Wrote out.old at (mpt_line control b.now t) out.new result }
{
    let values = [
        control as u64,
        t.table_id as u64,
        t.version as u64,
        t.mode as u64,
    ];
    let mut p = fill::fill(
        out,
        at,
        b"mpt # table_id 0x%% version # mode # package_id ",
        &values,
    );
    p = part_hex(out, p, b, t.package_id);
    p = text::put(out, p, b" service_id ");
    p = maybe(out, p, t.service_id(b).map(u64::from));
    text::put(out, p, b"\n")
}

#[tactic(auto, using(crate::proofs::Written::writing), unfolding(crate::specs::DumpTables::mpt_table))]
fn mpt_table(out: &mut [u8], at: usize, control: u32, b: &[u8], t: Mpt) -> usize
    ensures { Wrote out.old at (mpt_table control b.now t) out.new result }
{
    let mut p = mpt_line(out, at, control, b, t);
    p = descriptors(out, p, b"  ", t.descriptors.of(b));
    assets(out, p, b, t.assets, t.start)
}

// The kept MPT of a control id.
#[tactic(auto, unfolding(crate::specs::DumpTables::mpt_text))]
pub fn mpt_lines(out: &mut [u8], at: usize, control: u32, b: &[u8]) -> usize
    ensures { Wrote out.old at (mpt_text control b.now) out.new result }
{
    match mpt::parse(b).mpt {
        None => text::place(out, at),
        Some(t) => mpt_table(out, at, control, b, t),
    }
}
