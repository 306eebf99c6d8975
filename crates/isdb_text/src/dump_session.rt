// What a packet gave, and what a session holds beside its tables, as `feeddump` writes them.
ghost use Rattle.std.specs.Prelude.{◌≡◌, ◌*◌, ◌<◌, ◌≤◌, [], ◌∷◌, length};
ghost use Rattle.isdb_mmt.specs.Memory.Layout.{most_control_ids, most_message_area};
ghost use Rattle.isdb_mmt.specs.Memory.Lending.{lent_by};
ghost use Rattle.isdb_mmt.specs.Pushes.Answer.{answered};
ghost use Rattle.isdb_text.specs.Text.{Wrote, ascii};
ghost use Rattle.isdb_text.specs.Fill.{filled};
ghost use Rattle.isdb_text.specs.DumpSession.{data_text, record_text, numbered, packet_line, mfu_line, feed_counters, table_counters};
ghost use Rattle.isdb_text.specs.DumpSession.{message_counters, counter_lines, unix_bits};
ghost use Rattle.isdb_text.specs.DumpSession.{ntp_line, stats_line, range_line};
ghost use Rattle.isdb_text.specs.DumpSession.{state_lines};
ghost use Rattle.isdb_text.specs.DumpSession.{media_lines, object_line, held_line, carried_line, asset_line, media_text, all_media};
ghost use Rattle.isdb_text.specs.DumpSession.{control_index, joined_line};
ghost use Rattle.isdb_text.specs.DumpSession.{message_line, control_line, control_text, all_controls, other_line, other_text, other_lines};
ghost use Rattle.isdb_text.specs.DumpSession.{feed_lines, session_lines};

use crate::{fill, text};
use isdb_mmt::decoder::counts::{AssetStats, Counters};
use isdb_mmt::decoder::readings::{
    CarriedAsset, ControlState, Held, HeldObject, MediaState, MpuRange,
};
use isdb_mmt::decoder::records;
use isdb_mmt::decoder::records::HandedOut;
use isdb_mmt::decoder::refusal::Refusal;
use isdb_mmt::decoder::session::Session;
use isdb_mmt::{maybe, ntp};
use isdb_tlv::{bytes, crc};

pub(crate) const NOTHING: HandedOut = HandedOut {
    records: 0,
    bytes: 0,
};

// What a push answered to the packet with this number.
#[tactic(auto, unfolding(crate::specs::DumpSession::packet_line))]
pub fn packet_line(
    out: &mut [u8],
    at: usize,
    number: u64,
    kind: u8,
    n: u64,
    a: Result<HandedOut, Refusal>,
) -> usize
    ensures { Wrote out.old at (packet_line number kind n (answered a)) out.new result }
{
    match a {
        Ok(h) => packet_line_by_number(out, at, number, kind, n, 0, h),
        Err(e) => packet_line_by_number(out, at, number, kind, n, e.number(), NOTHING),
    }
}

// The same by the answer's number: 0 and what was handed out, or any other, of a packet that was turned down.
#[tactic(auto, unfolding(crate::specs::DumpSession::packet_line))]
pub fn packet_line_by_number(
    out: &mut [u8],
    at: usize,
    number: u64,
    kind: u8,
    n: u64,
    answer: u8,
    h: HandedOut,
) -> usize
    ensures { Wrote out.old at (packet_line number kind n (numbered answer h)) out.new result }
{
    if answer == 0 {
        let values = [number, kind as u64, n, h.records, h.bytes];
        return fill::fill(
            out,
            at,
            b"packet # kind %% length # records # bytes #\n",
            &values,
        );
    }
    let values = [number, kind as u64, n, answer as u64];
    fill::fill(out, at, b"packet # kind %% length # refused #\n", &values)
}

// The number and the CRC of some bytes, at a line's end.
#[tactic(auto, unfolding(crate::specs::DumpSession::data_text))]
pub fn data_text(out: &mut [u8], at: usize, mfu: &[u8]) -> usize
    ensures { Wrote out.old at (data_text mfu.now) out.new result }
{
    let values = [mfu.len() as u64, crc::crc32(mfu) as u64];
    fill::fill(out, at, b" # %%%%%%%%\n", &values)
}

// A record's row and its data.
#[tactic(auto, using(crate::proofs::Written::writing), unfolding(crate::specs::DumpSession::record_text))]
fn record_text(out: &mut [u8], at: usize, row: &[u8], mfu: &[u8]) -> usize
    ensures { Wrote out.old at (record_text row.now mfu.now) out.new result }
{
    let p = text::hex(out, at, row);
    data_text(out, p, mfu)
}

// A record that a push handed out, its data among the data of all.
#[tactic(auto, using(crate::proofs::Written::writing), unfolding(crate::specs::DumpSession::mfu_line))]
pub fn mfu_line(out: &mut [u8], at: usize, row: &[u8], all: &[u8]) -> usize
    ensures { Wrote out.old at (mfu_line row.now all.now) out.new result }
{
    let p = text::put(out, at, b"mfu ");
    let start = bytes::get_u32(row, 28) as usize;
    let length = bytes::get_u32(row, 32) as usize;
    record_text(out, p, row, bytes::part(all, start, length))
}

// That all packets were read, and how many.
pub fn end_packets(out: &mut [u8], at: usize, packets: u64) -> usize
    ensures { Wrote out.old at (filled (ascii "end packets #\n") (packets ∷ [])) out.new result }
{
    fill::fill(out, at, b"end packets #\n", &[packets])
}

// That reading stopped at the packet that begins here.
pub fn end_bad(out: &mut [u8], at: usize, offset: u64) -> usize
    ensures { Wrote out.old at (filled (ascii "end bad #\n") (offset ∷ [])) out.new result }
{
    fill::fill(out, at, b"end bad #\n", &[offset])
}

fn feed_counters(out: &mut [u8], at: usize, c: Counters) -> usize
    ensures { Wrote out.old at (feed_counters c) out.new result }
{
    let values = [c.tlv_packets, c.ip_errors, c.non_mmtp, c.ntp];
    fill::fill(
        out,
        at,
        b"counter tlv_packets #\ncounter ip_errors #\ncounter non_mmtp #\ncounter ntp #\n",
        &values,
    )
}

fn table_counters(out: &mut [u8], at: usize, c: Counters) -> usize
    ensures { Wrote out.old at (table_counters c) out.new result }
{
    let values = [c.tables, c.crc_errors, c.malformed, c.version_changes];
    fill::fill(
        out,
        at,
        b"counter tables #\ncounter crc_errors #\ncounter malformed #\ncounter version_changes #\n",
        &values,
    )
}

fn message_counters(out: &mut [u8], at: usize, c: Counters) -> usize
    ensures { Wrote out.old at (message_counters c) out.new result }
{
    let values = [c.orphan_fragments, c.oversize, c.message_malformed];
    let p = fill::fill(
        out,
        at,
        b"counter message_orphan_fragments #\ncounter message_oversize #\ncounter message_malformed #\n",
        &values,
    );
    fill::fill(out, p, b"counter split_errors #\n", &[c.split_errors])
}

#[tactic(auto, using(crate::proofs::Written::writing))]
fn counter_lines(out: &mut [u8], at: usize, r: Result<Counters, Refusal>) -> usize
    ensures { Wrote out.old at (counter_lines r) out.new result }
{
    match r {
        Ok(c) => {
            let p = feed_counters(out, at, c);
            let q = table_counters(out, p, c);
            message_counters(out, q, c)
        }
        Err(_) => text::place(out, at),
    }
}

// The bits of a timestamp's seconds since the Unix epoch.
fn unix_bits(t: u64) -> u64
    ensures { result ≡ unix_bits t }
{
    let x = ntp::ntp_to_unix(t);
    if x.is_nan() {
        0x7FF8_0000_0000_0000
    } else {
        x.to_bits()
    }
}

fn ntp_line(out: &mut [u8], at: usize, r: Result<Option<u64>, Refusal>) -> usize
    ensures { Wrote out.old at (ntp_line r) out.new result }
{
    match r {
        Ok(Some(t)) => {
            let values = [t, unix_bits(t)];
            fill::fill(
                out,
                at,
                b"ntp %%%%%%%%%%%%%%%% unix_bits %%%%%%%%%%%%%%%%\n",
                &values,
            )
        }
        Ok(None) => text::put(out, at, b"ntp none\n"),
        Err(_) => text::place(out, at),
    }
}

fn stats_line(out: &mut [u8], at: usize, id: u32, s: AssetStats) -> usize
    ensures { Wrote out.old at (stats_line id s) out.new result }
{
    let first = [
        id as u64,
        s.packets,
        s.packets_lost,
        s.scrambled_packets,
        s.mfus,
    ];
    let p = fill::fill(
        out,
        at,
        b"media # packets # packets_lost # scrambled_packets # mfus # ",
        &first,
    );
    let second = [
        s.scrambled_mfus,
        s.mfus_dropped,
        s.mpus,
        s.mpu_sequence_jumps,
        s.malformed,
    ];
    fill::fill(
        out,
        p,
        b"scrambled_mfus # mfus_dropped # mpus # mpu_sequence_jumps # malformed #\n",
        &second,
    )
}

fn range_line(out: &mut [u8], at: usize, id: u32, r: Option<MpuRange>) -> usize
    ensures { Wrote out.old at (range_line id r) out.new result }
{
    match r {
        None => fill::fill(out, at, b"media # mpu_range none\n", &[id as u64]),
        Some(x) => {
            let values = [id as u64, x.first as u64, x.last as u64];
            fill::fill(out, at, b"media # mpu_range # #\n", &values)
        }
    }
}

fn state_lines(out: &mut [u8], at: usize, id: u32, m: MediaState) -> usize
    ensures { Wrote out.old at (state_lines id m) out.new result }
{
    let p = stats_line(out, at, id, m.stats);
    let q = range_line(out, p, id, m.mpu_range);
    let values = [
        id as u64,
        maybe::given(m.sequence),
        m.sequence.unwrap_or(0) as u64,
    ];
    fill::fill(out, q, b"media # last_sequence ?\n", &values)
}

fn media_lines(out: &mut [u8], at: usize, id: u32, r: Result<Option<MediaState>, Refusal>) -> usize
    ensures { Wrote out.old at (media_lines id r) out.new result }
{
    match r {
        Ok(Some(m)) => state_lines(out, at, id, m),
        Ok(None) | Err(_) => text::place(out, at),
    }
}

fn object_line(out: &mut [u8], at: usize, id: u32, o: HeldObject, objects: &[u8]) -> usize
    ensures { Wrote out.old at (object_line id o objects.now) out.new result }
{
    let mut row = [0u8; 36];
    records::held_row(&mut row, id, o);
    let p = fill::fill(out, at, b"media # held ", &[id as u64]);
    record_text(out, p, &row, o.bytes.of(objects))
}

fn held_line(out: &mut [u8], at: usize, id: u32, r: Result<Held, Refusal>, objects: &[u8]) -> usize
    ensures { Wrote out.old at (held_line id r objects.now) out.new result }
{
    match r {
        Ok(Held::Object(o)) => object_line(out, at, id, o, objects),
        Ok(Held::NoObject) => fill::fill(out, at, b"media # held none\n", &[id as u64]),
        Ok(Held::NoId) | Err(_) => text::place(out, at),
    }
}

fn carried_line(out: &mut [u8], at: usize, id: u32, a: CarriedAsset, tables: &[u8]) -> usize
    ensures { Wrote out.old at (carried_line id a tables.now) out.new result }
{
    let values = [
        id as u64,
        maybe::given(a.service_id),
        a.service_id.unwrap_or(0) as u64,
        a.asset.asset_type as u64,
    ];
    let p = fill::fill(
        out,
        at,
        b"media # asset_of service ? type %%%%%%%% id ",
        &values,
    );
    let q = text::hex(out, p, a.asset.asset_id.of(a.mpt.of(tables)));
    text::put_byte(out, q, b'\n')
}

fn asset_line(
    out: &mut [u8],
    at: usize,
    id: u32,
    r: Result<Option<CarriedAsset>, Refusal>,
    tables: &[u8],
) -> usize
    ensures { Wrote out.old at (asset_line id r tables.now) out.new result }
{
    match r {
        Ok(Some(a)) => carried_line(out, at, id, a, tables),
        Ok(None) => fill::fill(out, at, b"media # asset_of none\n", &[id as u64]),
        Err(_) => text::place(out, at),
    }
}

// The five lines of a media id. Packet ids have 16 bits.
#[tactic(auto, using(crate::proofs::Written::writing), unfolding(crate::specs::DumpSession::media_text))]
fn media_text(session: Session<'_>, id: u32, out: &mut [u8], at: usize) -> usize
    ensures { Wrote out.old at (media_text (lent_by session.entry) id) out.new result }
{
    let m = session.media(id);
    let h = session.held(id);
    let packet_id = (id % 65536) as u16;
    let a = session.asset_of(packet_id);
    let p = media_lines(out, at, id, m);
    let q = held_line(out, p, id, h, session.objects);
    asset_line(out, q, id, a, session.tables)
}

// The lines of all media ids, in ascending order.
fn all_media(session: Session<'_>, out: &mut [u8], at: usize) -> usize
    ensures { Wrote out.old at (all_media (lent_by session.entry)) out.new result }
{
    let mut p = text::place(out, at);
    let mut from = 0;
    // The next id is known once this one is read.
    for _ in 0..64u8 {
        let Ok(Some(id)) = session.next_media(from) else {
            break;
        };
        p = media_text(session, id, out, p);
        if id == u32::MAX {
            break;
        }
        from = id + 1;
    }
    p
}

// The index of the control place of a packet id; where it has none, how many are in use.
#[tactic(auto, using(crate::proofs::Dumped::index_start, crate::proofs::Dumped::index_hit, crate::proofs::Dumped::index_miss, crate::proofs::Dumped::index_end))]
fn control_index(state: &[u8], id: u32) -> usize
    ensures { result ≡ control_index state.now id }
{
    let n = bytes::get_u32(state, 61) as usize;
    for i in 0..n {
        if bytes::get_u32(state, 7864 + 21 * i) == id {
            return i;
        }
    }
    n
}

// A message that is being joined: the flags of its first fragment, and its bytes so far.
fn joined_line(out: &mut [u8], at: usize, id: u32, place: &[u8], area: &[u8]) -> usize
    ensures { Wrote out.old at (joined_line id place.now area.now) out.new result }
{
    if bytes::get_u8(place, 9) != 0 {
        let long = u64::from(bytes::get_u8(place, 10) != 0);
        let aggregated = u64::from(bytes::get_u8(place, 11) != 0);
        let length = bytes::get_u32(place, 12) as usize;
        let values = [id as u64, long, aggregated];
        let p = fill::fill(
            out,
            at,
            b"control # held long_length # aggregated #",
            &values,
        );
        return data_text(out, p, bytes::part(area, 0, length));
    }
    fill::fill(out, at, b"control # held none\n", &[id as u64])
}

// Where the area with this index begins.
fn area_start(i: usize, size: u64) -> usize
    requires { (i < most_control_ids) × (size ≤ most_message_area) }
    ensures { result ≡ i * size }
{
    i * (size as usize)
}

// What the control place with this index holds of a message.
#[tactic(auto, using(crate::proofs::Written::writing), unfolding(isdb_mmt::specs::Memory::Session::limits_of, crate::specs::DumpSession::message_line))]
fn message_line(
    out: &mut [u8],
    at: usize,
    id: u32,
    i: usize,
    state: &[u8],
    messages: &[u8],
) -> usize
    ensures { Wrote out.old at (message_line id i state.now messages.now) out.new result }
{
    if 32 <= i {
        return text::place(out, at);
    }
    let size = bytes::get_u64(state, 32);
    if 1048576 < size {
        return text::place(out, at);
    }
    let place = bytes::part(state, 7864 + 21 * i, 21);
    let area = bytes::rest(messages, area_start(i, size));
    joined_line(out, at, id, place, area)
}

fn control_line(
    out: &mut [u8],
    at: usize,
    id: u32,
    r: Result<Option<ControlState>, Refusal>,
) -> usize
    ensures { Wrote out.old at (control_line id r) out.new result }
{
    match r {
        Ok(Some(c)) => {
            let values = [
                id as u64,
                maybe::given(c.sequence),
                c.sequence.unwrap_or(0) as u64,
            ];
            fill::fill(out, at, b"control # last_sequence ?\n", &values)
        }
        Ok(None) | Err(_) => text::place(out, at),
    }
}

// The two lines of a control id.
#[tactic(auto, using(crate::proofs::Written::writing), unfolding(crate::specs::DumpSession::control_text))]
fn control_text(session: Session<'_>, id: u32, out: &mut [u8], at: usize) -> usize
    ensures { Wrote out.old at (control_text (lent_by session.entry) id) out.new result }
{
    let c = session.control(id);
    let i = control_index(session.state, id);
    let p = control_line(out, at, id, c);
    message_line(out, p, id, i, session.state, session.messages)
}

// The lines of all control ids, in ascending order.
fn all_controls(session: Session<'_>, out: &mut [u8], at: usize) -> usize
    ensures { Wrote out.old at (all_controls (lent_by session.entry)) out.new result }
{
    let mut p = text::place(out, at);
    let mut from = 0;
    // The next id is known once this one is read.
    for _ in 0..32u8 {
        let Ok(Some(id)) = session.next_control(from) else {
            break;
        };
        p = control_text(session, id, out, p);
        if id == u32::MAX {
            break;
        }
        from = id + 1;
    }
    p
}

fn other_line(out: &mut [u8], at: usize, id: u8, r: Result<u64, Refusal>) -> usize
    ensures { Wrote out.old at (other_line id r) out.new result }
{
    match r {
        Ok(n) => {
            if n == 0 {
                text::place(out, at)
            } else {
                fill::fill(out, at, b"other 0x%% #\n", &[id as u64, n])
            }
        }
        Err(_) => text::place(out, at),
    }
}

#[tactic(auto, unfolding(crate::specs::DumpSession::other_text))]
fn other_text(session: Session<'_>, id: u8, out: &mut [u8], at: usize) -> usize
    ensures { Wrote out.old at (other_text (lent_by session.entry) id) out.new result }
{
    let n = session.table_count(id);
    other_line(out, at, id, n)
}

// The counts of the tables that are not decoded, in ascending order of their ids.
fn other_lines(session: Session<'_>, out: &mut [u8], at: usize) -> usize
    ensures { Wrote out.old at (other_lines (lent_by session.entry)) out.new result }
{
    let mut p = text::place(out, at);
    for id in 0..256u16 {
        p = other_text(session, id as u8, out, p);
    }
    p
}

// The counts of the feed and its time.
#[tactic(auto, using(crate::proofs::Written::writing), unfolding(crate::specs::DumpSession::feed_lines))]
fn feed_lines(session: Session<'_>, out: &mut [u8], at: usize) -> usize
    ensures { Wrote out.old at (feed_lines (lent_by session.entry)) out.new result }
{
    let c = session.counters();
    let t = session.time();
    let p = counter_lines(out, at, c);
    ntp_line(out, p, t)
}

// Everything that a session holds beside its tables.
#[tactic(auto, using(crate::proofs::Written::writing), unfolding(crate::specs::DumpSession::session_lines))]
pub fn session_lines(session: Session<'_>, out: &mut [u8], at: usize) -> usize
    ensures { Wrote out.old at (session_lines (lent_by session.entry)) out.new result }
{
    let p = feed_lines(session, out, at);
    let q = all_media(session, out, p);
    let x = all_controls(session, out, q);
    other_lines(session, out, x)
}
