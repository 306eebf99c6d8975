// The calls on a session: its limits, opening it, pushes, and readings, which change nothing.
ghost use Rattle.std.specs.Prelude.{◌≡◌};
ghost use Rattle.isdb_mmt.specs.Memory.Limits.{needed_of};
ghost use Rattle.isdb_mmt.specs.Memory.Lending.{lent_by};
ghost use Rattle.isdb_mmt.specs.Pushes.Answer.{answered};
ghost use Rattle.isdb_mmt.specs.Memory.Opening.{lent, Opened};
ghost use Rattle.isdb_mmt.specs.Pushes.Push.{input};
ghost use Rattle.isdb_mmt.specs.Answers.Readings.{counters_read, time_read, count_read, next_media_read, next_control_read, next_key_read, media_read, held_read, control_read, section_read, mpt_read, plt_read, tot_read, asset_read};
ghost use Rattle.isdb_host.specs.Values.{Replied};
ghost use Rattle.isdb_host.specs.Session.{limits_from, answer_said, reading_said, part_numbers, length_numbers, counter_numbers, needed_said, push_said, HostPushed, halt_code, halt_number, all_said, HostPushedAll, counters_said, time_said, count_said, name_said, media_numbers, media_said, held_numbers, held_said, control_numbers, control_said, table_said, asset_numbers, asset_said};

use crate::values::Told;
use crate::{fields, values};
use isdb_mmt::decoder::counts::Counters;
use isdb_mmt::decoder::limits;
use isdb_mmt::decoder::limits::{Lengths, Limits};
use isdb_mmt::decoder::many::{Halt, Pushes};
use isdb_mmt::decoder::readings::{CarriedAsset, ControlState, Held, HeldObject, MediaState};
use isdb_mmt::decoder::records::HandedOut;
use isdb_mmt::decoder::refusal::Refusal;
use isdb_mmt::decoder::session::{Session, SessionMut};
use isdb_mmt::part::Part;
use isdb_mmt::{decoder, maybe, mpu};

// Eight numbers in the order of the limits.
#[tactic(auto, unfolding(crate::specs::Session::limits_from))]
fn limits_from(x: &[u64; 8]) -> Limits
    ensures { result ≡ limits_from x.now }
{
    Limits {
        media_ids: x[0],
        control_ids: x[1],
        sections: x[2],
        mfu_area: x[3],
        message_area: x[4],
        table_area: x[5],
        packets: x[6],
        pass_scrambled: x[7] != 0,
    }
}

// An answer, or the number of a refusal.
fn answer<T: Told>(r: Result<T, Refusal>, v: &mut [u64; 16]) -> u8
    ensures { Replied (answer_said T.numbers r) result v.old v.new }
{
    match r {
        Err(e) => e.number(),
        Ok(x) => x.told(v),
    }
}

// The same of a reading, which may find nothing.
fn reading<T: Told>(r: Result<Option<T>, Refusal>, v: &mut [u64; 16]) -> u8
    ensures { Replied (reading_said T.numbers r) result v.old v.new }
{
    match r {
        Err(e) => e.number(),
        Ok(None) => values::NOTHING,
        Ok(Some(x)) => x.told(v),
    }
}

impl Told for Part {
    ghost numbers = { part_numbers };

    fn told(self, v: &mut [u64; 16]) -> u8 {
        values::says(v, &[self.start as u64, self.length as u64])
    }
}

impl Told for Lengths {
    ghost numbers = { length_numbers };

    fn told(self, v: &mut [u64; 16]) -> u8 {
        values::says(v, &[self.state, self.objects, self.messages, self.tables])
    }
}

// How long the lent buffers have to be.
#[unsafe(no_mangle)]
pub extern "C" fn isdb_needed(limits: &[u64; 8], v: &mut [u64; 16]) -> u8
    ensures { Replied (needed_said (needed_of (limits_from limits.now))) result v.old v.new }
{
    answer(limits::needed(limits_from(limits)), v)
}

// Opens a session. The areas are not written.
#[unsafe(no_mangle)]
pub extern "C" fn isdb_open(
    limits: &[u64; 8],
    state: &mut [u8],
    others: &mut [u64; 256],
    objects: &[u8],
    messages: &[u8],
    tables: &[u8],
) -> u8
    ensures { Opened (limits_from limits.now) (lent state.old others.old objects.now messages.now tables.now) result (lent state.new others.new objects.now messages.now tables.now) }
{
    match decoder::open(
        limits_from(limits),
        state,
        others,
        objects,
        messages,
        tables,
    ) {
        Ok(()) => 0,
        Err(e) => e.number(),
    }
}

fn push_said(a: Result<HandedOut, Refusal>, v: &mut [u64; 16]) -> u8
    ensures { Replied (push_said (answered a).number (answered a).records (answered a).bytes) result v.old v.new }
{
    match a {
        Ok(h) => values::says(v, &[h.records, h.bytes]),
        Err(refusal) => refusal.number(),
    }
}

// Takes a packet of a kind byte and its data, and hands out records and their data.
#[unsafe(no_mangle)]
pub extern "C" fn isdb_push(
    state: &mut [u8],
    others: &mut [u64; 256],
    objects: &mut [u8],
    messages: &mut [u8],
    tables: &mut [u8],
    kind: u8,
    data: &[u8],
    rows: &mut [u8],
    out: &mut [u8],
    v: &mut [u64; 16],
) -> u8
    ensures { HostPushed (lent state.old others.old objects.old messages.old tables.old) (input kind «data».now rows.old out.old) result (lent state.new others.new objects.new messages.new tables.new) rows.new out.new v.old v.new }
{
    let mut session = SessionMut {
        state,
        others,
        objects,
        messages,
        tables,
    };
    push_said(session.push(kind, data, rows, out), v)
}

// Why it ended, as C reads it.
fn halt_code(h: Halt) -> u64
    ensures { result ≡ halt_code h }
{
    match h {
        Halt::End => 0,
        Halt::Short => 1,
        Halt::Bad => 2,
        Halt::Full => 3,
        Halt::Refused(_) => 4,
    }
}

fn halt_number(h: Halt) -> u64
    ensures { result ≡ halt_number h }
{
    match h {
        Halt::End | Halt::Short | Halt::Bad | Halt::Full => 0,
        Halt::Refused(e) => u64::from(e.number()),
    }
}

fn all_said(a: Pushes, v: &mut [u64; 16]) -> u8
    ensures { Replied (all_said a) result v.old v.new }
{
    values::says(
        v,
        &[
            a.progress.at as u64,
            a.progress.packets as u64,
            a.progress.records as u64,
            a.progress.bytes as u64,
            halt_code(a.halt),
            halt_number(a.halt),
        ],
    )
}

// Takes packets that lie one behind the other in the input, and hands out records, their data, and a line for each packet.
#[unsafe(no_mangle)]
pub extern "C" fn isdb_push_all(
    state: &mut [u8],
    others: &mut [u64; 256],
    objects: &mut [u8],
    messages: &mut [u8],
    tables: &mut [u8],
    input: &[u8],
    most: usize,
    rows: &mut [u8],
    out: &mut [u8],
    lines: &mut [u8],
    v: &mut [u64; 16],
) -> u8
    ensures { HostPushedAll (lent state.old others.old objects.old messages.old tables.old) input.now most rows.old out.old lines.old result (lent state.new others.new objects.new messages.new tables.new) rows.new out.new lines.new v.old v.new }
{
    let mut session = SessionMut {
        state,
        others,
        objects,
        messages,
        tables,
    };
    all_said(session.push_all(input, most, rows, out, lines), v)
}

// A session, to be read.
fn lent_session<'a>(
    state: &'a [u8],
    others: &'a [u64; 256],
    objects: &'a [u8],
    messages: &'a [u8],
    tables: &'a [u8],
) -> Session<'a>
    ensures { lent_by result ≡ lent state.now others.now objects.now messages.now tables.now }
{
    Session {
        state,
        others,
        objects,
        messages,
        tables,
    }
}

impl Told for Counters {
    ghost numbers = { counter_numbers };

    fn told(self, v: &mut [u64; 16]) -> u8 {
        values::says(
            v,
            &[
                self.tlv_packets,
                self.ip_errors,
                self.non_mmtp,
                self.ntp,
                self.tables,
                self.crc_errors,
                self.malformed,
                self.version_changes,
                self.orphan_fragments,
                self.oversize,
                self.message_malformed,
                self.split_errors,
            ],
        )
    }
}

// The counts of the feed.
#[unsafe(no_mangle)]
pub extern "C" fn isdb_counters(
    state: &[u8],
    others: &[u64; 256],
    objects: &[u8],
    messages: &[u8],
    tables: &[u8],
    v: &mut [u64; 16],
) -> u8
    ensures { Replied (counters_said (counters_read (lent state.now others.now objects.now messages.now tables.now))) result v.old v.new }
{
    answer(
        lent_session(state, others, objects, messages, tables).counters(),
        v,
    )
}

// The last NTP timestamp.
#[unsafe(no_mangle)]
pub extern "C" fn isdb_time(
    state: &[u8],
    others: &[u64; 256],
    objects: &[u8],
    messages: &[u8],
    tables: &[u8],
    v: &mut [u64; 16],
) -> u8
    ensures { Replied (time_said (time_read (lent state.now others.now objects.now messages.now tables.now))) result v.old v.new }
{
    reading(
        lent_session(state, others, objects, messages, tables).time(),
        v,
    )
}

// How many tables of an id came that are not decoded.
#[unsafe(no_mangle)]
pub extern "C" fn isdb_table_count(
    state: &[u8],
    others: &[u64; 256],
    objects: &[u8],
    messages: &[u8],
    tables: &[u8],
    id: u8,
    v: &mut [u64; 16],
) -> u8
    ensures { Replied (count_said (count_read (lent state.now others.now objects.now messages.now tables.now) id)) result v.old v.new }
{
    answer(
        lent_session(state, others, objects, messages, tables).table_count(id),
        v,
    )
}

// The least media packet id from one on.
#[unsafe(no_mangle)]
pub extern "C" fn isdb_next_media(
    state: &[u8],
    others: &[u64; 256],
    objects: &[u8],
    messages: &[u8],
    tables: &[u8],
    from: u32,
    v: &mut [u64; 16],
) -> u8
    ensures { Replied (name_said (next_media_read (lent state.now others.now objects.now messages.now tables.now) from)) result v.old v.new }
{
    reading(
        lent_session(state, others, objects, messages, tables).next_media(from),
        v,
    )
}

// The least packet id of control messages from one on.
#[unsafe(no_mangle)]
pub extern "C" fn isdb_next_control(
    state: &[u8],
    others: &[u64; 256],
    objects: &[u8],
    messages: &[u8],
    tables: &[u8],
    from: u32,
    v: &mut [u64; 16],
) -> u8
    ensures { Replied (name_said (next_control_read (lent state.now others.now objects.now messages.now tables.now) from)) result v.old v.new }
{
    reading(
        lent_session(state, others, objects, messages, tables).next_control(from),
        v,
    )
}

// The least key of a kept section from first to last.
#[unsafe(no_mangle)]
pub extern "C" fn isdb_next_key(
    state: &[u8],
    others: &[u64; 256],
    objects: &[u8],
    messages: &[u8],
    tables: &[u8],
    first: u32,
    last: u32,
    v: &mut [u64; 16],
) -> u8
    ensures { Replied (name_said (next_key_read (lent state.now others.now objects.now messages.now tables.now) first last)) result v.old v.new }
{
    reading(
        lent_session(state, others, objects, messages, tables).next_key(first, last),
        v,
    )
}

impl Told for MediaState {
    ghost numbers = { media_numbers };

    fn told(self, v: &mut [u64; 16]) -> u8 {
        let s = self.stats;
        values::says(
            v,
            &[
                s.packets,
                s.packets_lost,
                s.scrambled_packets,
                s.mfus,
                s.scrambled_mfus,
                s.mfus_dropped,
                s.mpus,
                s.mpu_sequence_jumps,
                s.malformed,
                maybe::given(self.mpu_range),
                fields::first_mpu(self.mpu_range),
                fields::last_mpu(self.mpu_range),
                maybe::given(self.sequence),
                self.sequence.unwrap_or(0) as u64,
                maybe::given(self.held),
                self.held.unwrap_or(0) as u64,
            ],
        )
    }
}

// What is known of a media packet id.
#[unsafe(no_mangle)]
pub extern "C" fn isdb_media(
    state: &[u8],
    others: &[u64; 256],
    objects: &[u8],
    messages: &[u8],
    tables: &[u8],
    id: u32,
    v: &mut [u64; 16],
) -> u8
    ensures { Replied (media_said (media_read (lent state.now others.now objects.now messages.now tables.now) id)) result v.old v.new }
{
    reading(
        lent_session(state, others, objects, messages, tables).media(id),
        v,
    )
}

impl Told for HeldObject {
    ghost numbers = { held_numbers };

    fn told(self, v: &mut [u64; 16]) -> u8 {
        let h = self.mfu.unwrap_or(mpu::NO_HEADER);
        values::says(
            v,
            &[
                self.mpu_sequence_number as u64,
                u64::from(self.rap),
                maybe::given(self.mfu),
                h.movie_fragment_sequence_number as u64,
                h.sample_number as u64,
                h.offset as u64,
                h.priority as u64,
                h.dependency_counter as u64,
                maybe::given(self.item_id),
                self.item_id.unwrap_or(0) as u64,
                self.bytes.start as u64,
                self.bytes.length as u64,
            ],
        )
    }
}

fn held_said(r: Result<Held, Refusal>, v: &mut [u64; 16]) -> u8
    ensures { Replied (held_said r) result v.old v.new }
{
    match r {
        Err(e) => e.number(),
        Ok(Held::NoId) => values::NO_ID,
        Ok(Held::NoObject) => values::NOTHING,
        Ok(Held::Object(o)) => o.told(v),
    }
}

// The object that a media packet id holds.
#[unsafe(no_mangle)]
pub extern "C" fn isdb_held(
    state: &[u8],
    others: &[u64; 256],
    objects: &[u8],
    messages: &[u8],
    tables: &[u8],
    id: u32,
    v: &mut [u64; 16],
) -> u8
    ensures { Replied (held_said (held_read (lent state.now others.now objects.now messages.now tables.now) id)) result v.old v.new }
{
    held_said(
        lent_session(state, others, objects, messages, tables).held(id),
        v,
    )
}

impl Told for ControlState {
    ghost numbers = { control_numbers };

    fn told(self, v: &mut [u64; 16]) -> u8 {
        values::says(
            v,
            &[
                maybe::given(self.sequence),
                self.sequence.unwrap_or(0) as u64,
                maybe::given(self.joined),
                self.joined.unwrap_or(0) as u64,
            ],
        )
    }
}

// What is known of a packet id of control messages.
#[unsafe(no_mangle)]
pub extern "C" fn isdb_control(
    state: &[u8],
    others: &[u64; 256],
    objects: &[u8],
    messages: &[u8],
    tables: &[u8],
    id: u32,
    v: &mut [u64; 16],
) -> u8
    ensures { Replied (control_said (control_read (lent state.now others.now objects.now messages.now tables.now) id)) result v.old v.new }
{
    reading(
        lent_session(state, others, objects, messages, tables).control(id),
        v,
    )
}

// The section kept for a key.
#[unsafe(no_mangle)]
pub extern "C" fn isdb_section(
    state: &[u8],
    others: &[u64; 256],
    objects: &[u8],
    messages: &[u8],
    tables: &[u8],
    key: u32,
    v: &mut [u64; 16],
) -> u8
    ensures { Replied (table_said (section_read (lent state.now others.now objects.now messages.now tables.now) key)) result v.old v.new }
{
    reading(
        lent_session(state, others, objects, messages, tables).section(key),
        v,
    )
}

// The MPT kept for a packet id of control messages.
#[unsafe(no_mangle)]
pub extern "C" fn isdb_mpt(
    state: &[u8],
    others: &[u64; 256],
    objects: &[u8],
    messages: &[u8],
    tables: &[u8],
    control_id: u32,
    v: &mut [u64; 16],
) -> u8
    ensures { Replied (table_said (mpt_read (lent state.now others.now objects.now messages.now tables.now) control_id)) result v.old v.new }
{
    reading(
        lent_session(state, others, objects, messages, tables).mpt(control_id),
        v,
    )
}

// The kept PLT.
#[unsafe(no_mangle)]
pub extern "C" fn isdb_plt(
    state: &[u8],
    others: &[u64; 256],
    objects: &[u8],
    messages: &[u8],
    tables: &[u8],
    v: &mut [u64; 16],
) -> u8
    ensures { Replied (table_said (plt_read (lent state.now others.now objects.now messages.now tables.now))) result v.old v.new }
{
    reading(
        lent_session(state, others, objects, messages, tables).plt(),
        v,
    )
}

// The kept TOT.
#[unsafe(no_mangle)]
pub extern "C" fn isdb_tot(
    state: &[u8],
    others: &[u64; 256],
    objects: &[u8],
    messages: &[u8],
    tables: &[u8],
    v: &mut [u64; 16],
) -> u8
    ensures { Replied (table_said (tot_read (lent state.now others.now objects.now messages.now tables.now))) result v.old v.new }
{
    reading(
        lent_session(state, others, objects, messages, tables).tot(),
        v,
    )
}

impl Told for CarriedAsset {
    ghost numbers = { asset_numbers };

    fn told(self, v: &mut [u64; 16]) -> u8 {
        let a = self.asset;
        values::says(
            v,
            &[
                self.control_id as u64,
                self.mpt.start as u64,
                self.mpt.length as u64,
                maybe::given(self.service_id),
                self.service_id.unwrap_or(0) as u64,
                a.identifier_type as u64,
                a.asset_id_scheme as u64,
                a.asset_id.start as u64,
                a.asset_id.length as u64,
                a.asset_type as u64,
                u64::from(a.clock_relation),
                a.locations as u64,
                a.locations_start as u64,
                a.descriptors.start as u64,
                a.descriptors.length as u64,
            ],
        )
    }
}

// The asset that a media packet id carries.
#[unsafe(no_mangle)]
pub extern "C" fn isdb_asset_of(
    state: &[u8],
    others: &[u64; 256],
    objects: &[u8],
    messages: &[u8],
    tables: &[u8],
    packet_id: u16,
    v: &mut [u64; 16],
) -> u8
    ensures { Replied (asset_said (asset_read (lent state.now others.now objects.now messages.now tables.now) packet_id)) result v.old v.new }
{
    reading(
        lent_session(state, others, objects, messages, tables).asset_of(packet_id),
        v,
    )
}
