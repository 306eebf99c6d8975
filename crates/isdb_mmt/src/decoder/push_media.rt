// A media packet: its place, its outcome, the number of the question that is answered no, and the commit of what it hands out,
// holds and counts.
ghost use Rattle.std.specs.Prelude.{◌≡◌, ◌+◌, ◌-◌, ◌*◌, ◌<◌, ◌≤◌, true, false, [], length, drop};
ghost use Rattle.std.specs.Prelude.{if◌then◌else◌};
ghost use Rattle.isdb_tlv.specs.Fields.{written};
ghost use Rattle.isdb_mmt.specs.Formats.Part.{part_of};
ghost use Rattle.isdb_mmt.specs.Decoder.Packet.{media_of};
ghost use Rattle.isdb_mmt.specs.Formats.Mpu.{units_of};
ghost use Rattle.isdb_mmt.specs.Memory.Layout.{most_media_ids, media_places, media_size, state_size};
ghost use Rattle.isdb_mmt.specs.Memory.Lent.{part, over};
ghost use Rattle.isdb_mmt.specs.Memory.Session.{media_fields};
ghost use Rattle.isdb_mmt.specs.Memory.Lending.{lent_mut, SameBuffers};
ghost use Rattle.isdb_mmt.specs.Memory.Refusals.{answer_number};
ghost use Rattle.isdb_mmt.specs.Pushes.Answer.{answered};
ghost use Rattle.isdb_mmt.specs.Pushes.MediaEffect.{unit_object, object_or, with_length};
ghost use Rattle.isdb_mmt.specs.Pushes.MediaPlace.{start_of};
ghost use Rattle.isdb_mmt.specs.Pushes.MediaPush.{one_more_of, with_used, with_packets, media_place_for, MediaPushed};
ghost use Rattle.isdb_mmt.specs.Pushes.MediaCommit.{CanTakePlace, blank, place_in, index_of, passes_on, fits_number, number_of, Small, answer_of, OnePut, CanAppend, units_data, CanEnd, CanPass, passed_unit, CanTake, CanCommit, Committed, CanStore, state_after, CanCommitAll, CommittedAll, CanPushMedia};

use crate::decoder::counts::AssetStats;
use crate::decoder::head::Used;
use crate::decoder::layout::{COUNTERS, MEDIA_PLACES, MEDIA_SIZE};
use crate::decoder::limits::Limits;
use crate::decoder::media::Media;
use crate::decoder::place::PlaceFor;
use crate::decoder::reassembler::{MediaEffect, MediaOutcome};
use crate::decoder::records::{HandedOut, ROW_SIZE};
use crate::decoder::refusal::Refusal;
use crate::decoder::session::SessionMut;
use crate::decoder::{head, media, place, reassembler, records};
use crate::mpu;
use crate::mpu::{FragmentationIndicator, PayloadHeader, Unit};
use crate::part::Part;
use crate::walk_step::WalkStep;
use isdb_tlv::bytes;
use isdb_tlv::mmtp::Header;

// The place of a media id.
#[tactic(auto, using(crate::proofs::Checks::media_within), unfolding(crate::specs::Pushes::MediaPush::media_place_for))]
fn media_place_for(s: &[u8], l: Limits, id: u16) -> PlaceFor
    requires { CanTakePlace s.now l }
    ensures { result ≡ media_place_for s.now id }
{
    let u = head::load_used(s);
    place::place_for(
        s,
        MEDIA_PLACES,
        MEDIA_SIZE,
        u.media_ids as usize,
        l.media_ids as usize,
        id as u32,
    )
}

fn blank_media() -> Media
    ensures { result ≡ blank }
{
    let object = reassembler::no_object();
    let stats = AssetStats {
        packets: 0,
        packets_lost: 0,
        scrambled_packets: 0,
        mfus: 0,
        scrambled_mfus: 0,
        mfus_dropped: 0,
        mpus: 0,
        mpu_sequence_jumps: 0,
        malformed: 0,
    };
    Media {
        packet_id: 0,
        seen: false,
        sequence: 0,
        mpu_seen: false,
        mpu: 0,
        first_mpu: 0,
        held: false,
        object,
        stats,
    }
}

// The place that a packet starts from.
#[tactic(auto, unfolding(crate::specs::Pushes::MediaCommit::place_in))]
fn place_in(s: &[u8], place_for: PlaceFor) -> Media
    requires { index_of place_for < most_media_ids }
    ensures { result ≡ place_in s.now place_for }
{
    match place_for {
        PlaceFor::Own(i) => media::load_media(s, i),
        PlaceFor::Free(i) => blank_media(),
        PlaceFor::NoneFree => blank_media(),
    }
}

fn index_of(place_for: PlaceFor) -> usize
    ensures { result ≡ index_of place_for }
{
    match place_for {
        PlaceFor::Own(i) => i,
        PlaceFor::Free(i) => i,
        PlaceFor::NoneFree => 0,
    }
}

// Whether a payload is passed on, scrambled as it is.
#[tactic(auto, unfolding(crate::specs::Pushes::MediaCommit::passes_on))]
fn passes_on(pass: bool, scrambled: bool, h: Option<PayloadHeader>) -> bool
    ensures { result ≡ passes_on pass scrambled h }
{
    h.is_some() && pass && scrambled
}

// The bytes that are passed on of n: all but the first 8.
fn passed_bytes(passed: bool, n: u64) -> u64
    ensures { result ≡ (if passed then n - 8 else 0) }
{
    if passed { n.saturating_sub(8) } else { 0 }
}

// Questions 9 and 10.
#[tactic(auto, unfolding(crate::specs::Pushes::MediaCommit::fits_number))]
fn fits(
    area: u64,
    longest: u64,
    rows: u64,
    given: u64,
    records: u64,
    bytes: u64,
) -> Result<(), Refusal>
    requires { records ≤ 65538 }
    ensures { answer_number result ≡ fits_number area longest rows given records bytes }
{
    if area < longest {
        return Err(Refusal::AreaTooSmall);
    }
    if rows < ROW_SIZE as u64 * records {
        return Err(Refusal::OutputTooSmall);
    }
    if given < bytes {
        return Err(Refusal::OutputTooSmall);
    }
    Ok(())
}

// Questions 8 to 10.
#[tactic(auto, unfolding(crate::specs::Pushes::MediaCommit::number_of))]
fn ask(
    place_for: PlaceFor,
    area: u64,
    longest: u64,
    rows: u64,
    given: u64,
    records: u64,
    bytes: u64,
) -> Result<(), Refusal>
    requires { records ≤ 65538 }
    ensures { answer_number result ≡ number_of place_for area longest rows given records bytes }
{
    match place_for {
        PlaceFor::NoneFree => Err(Refusal::NoPlaceFree),
        PlaceFor::Own(i) => fits(area, longest, rows, given, records, bytes),
        PlaceFor::Free(i) => fits(area, longest, rows, given, records, bytes),
    }
}

// From the limits and the outcome of a payload of n bytes.
#[tactic(auto, using(crate::proofs::Answers::add_records, crate::proofs::Answers::add_bytes, crate::proofs::Answers::few_records, crate::proofs::Answers::answer_yes, crate::proofs::Answers::answer_no, crate::proofs::Refusals::refusal_some))]
fn answer_of(
    place_for: PlaceFor,
    l: Limits,
    scrambled: bool,
    r: MediaOutcome,
    n: u64,
    rows: u64,
    given: u64,
) -> Result<HandedOut, Refusal>
    requires { Small r.units × (n ≤ 65535) }
    ensures { answered result ≡ answer_of place_for l scrambled r n rows given }
{
    let t = r.units;
    let k = r.header;
    let passed = passes_on(l.pass_scrambled, scrambled, k);
    let records = u64::from(passed) + t.records;
    let bytes = passed_bytes(passed, n) + t.bytes;
    ask(
        place_for, l.mfu_area, t.longest, rows, given, records, bytes,
    )?;
    records::accepted(records, bytes)
}

// Where the place is there already.
#[tactic(auto, using(crate::proofs::MediaStores::stored_old))]
pub(crate) fn store_old(s: &mut [u8], i: usize, m: Media, packets: u64)
    requires { (i < most_media_ids) × (state_size ≤ length s.old) }
    ensures { s.new ≡ with_packets packets (over (media_places + media_size * i) (written (media_fields m)) s.old) }
{
    media::store_media(s, i, m);
    bytes::put_u64(s, COUNTERS, packets);
}

// Where it is a new one.
#[tactic(auto, using(crate::proofs::MediaStores::stored_new))]
pub(crate) fn store_new(s: &mut [u8], i: usize, m: Media, u: Used, packets: u64)
    requires { (i < most_media_ids) × (state_size ≤ length s.old) }
    ensures { s.new ≡ with_packets packets (with_used u (over (media_places + media_size * i) (written (media_fields m)) s.old)) }
{
    media::store_media(s, i, m);
    head::store_used(s, u);
    bytes::put_u64(s, COUNTERS, packets);
}

fn one_more(u: Used) -> Used
    requires { u.media_ids ≤ most_media_ids }
    ensures { result ≡ one_more_of u }
{
    Used {
        media_ids: u.media_ids + 1,
        ..u
    }
}

// The place after a packet, and one packet more.
#[tactic(auto, unfolding(crate::specs::Pushes::MediaCommit::state_after, crate::specs::Memory::Session::counters_of))]
fn store_place(s: &mut [u8], place_for: PlaceFor, m: Media)
    requires { CanStore s.old place_for }
    ensures { s.new ≡ state_after s.old m place_for }
{
    let n = bytes::get_u64(s, COUNTERS) + 1;
    match place_for {
        PlaceFor::Own(i) => store_old(s, i, m, n),
        PlaceFor::Free(i) => {
            let u = one_more(head::load_used(s));
            store_new(s, i, m, u, n)
        }
        PlaceFor::NoneFree => {}
    }
}

// The data of the units, one behind the other from a place on.
fn append_units(s: &mut [u8], from: usize, q: &[u8], timed: bool, aggregated: bool)
    requires { CanAppend q.now timed aggregated from s.old }
    ensures { s.new ≡ over from (units_data q.now (units_of q.now timed aggregated)) s.old }
{
    let mut at: usize = 8;
    let mut k = from;
    // No iterator: of a step's three cases two end the walk, and where to go on is known once the unit is read.
    loop {
        match mpu::next_unit(q, timed, aggregated, at) {
            WalkStep::End => return,
            WalkStep::Malformed => return,
            WalkStep::Entry(u, next) => {
                let b = u.data.of(q);
                place::put_in_area(s, 0, 0, k, b);
                k += b.len();
                at = next;
            }
        }
    }
}

// The end of the held object: one record.
#[tactic(auto, using(crate::proofs::MediaCommits::can_end, crate::proofs::MediaCommits::end_is))]
fn end_object(
    objects: &[u8],
    at: usize,
    p: Media,
    t: MediaEffect,
    h: Header,
    q: &[u8],
    rows: &mut [u8],
    out: &mut [u8],
)
    requires { CanEnd at p t q.now objects.now rows.old out.old }
    ensures { OnePut h.packet_id false (with_length t.bytes (object_or (start_of p h.sequence).object)) (part at p.object.length objects.now) (part_of q.now t.last) rows.old out.old rows.new out.new }
{
    let s = reassembler::start_of(p, h.sequence);
    records::put_record(
        rows,
        out,
        h.packet_id,
        false,
        reassembler::with_length(t.bytes as u32, reassembler::object_or(s.object)),
        bytes::part(objects, at, p.object.length as usize),
        t.last.of(q),
    );
}

// A scrambled payload as it is, from byte 8 to its end: one record.
#[tactic(auto, using(crate::proofs::MediaCommits::can_pass, crate::proofs::MediaCommits::pass_is))]
fn pass_on(mpu: u32, h: Header, b: &[u8], rows: &mut [u8], out: &mut [u8])
    requires { CanPass b.now rows.old out.old }
    ensures { OnePut h.packet_id true (unit_object mpu h.rap (passed_unit (length b.now)) (length b.now - 8)) (drop 8 b.now) [] rows.old out.old rows.new out.new }
{
    let n = b.len() - 8;
    let u = Unit {
        mfu: None,
        item_id: None,
        data: Part {
            start: 8,
            length: n,
        },
    };
    records::put_record(
        rows,
        out,
        h.packet_id,
        true,
        reassembler::unit_object(mpu, h.rap, u, n as u32),
        bytes::part(b, 8, n),
        bytes::part(b, 0, 0),
    );
}

// The units, by their fragmentation indicator.
fn commit_units(
    x: PayloadHeader,
    objects: &mut [u8],
    at: usize,
    p: Media,
    r: MediaOutcome,
    h: Header,
    b: &[u8],
    rows: &mut [u8],
    out: &mut [u8],
)
    requires { CanTake x at p r h b.now objects.old rows.old out.old }
    ensures { Committed at false p h b.now objects.old rows.old out.old objects.new rows.new out.new }
{
    let q = mpu::declared(b);
    let t = r.units;
    let f = x.fragmentation;
    match f {
        FragmentationIndicator::Complete => {
            records::give_units(q, x, h.packet_id, h.rap, rows, out);
        }
        FragmentationIndicator::Head => {
            place::put_in_area(objects, 0, 0, at, t.last.of(q));
        }
        FragmentationIndicator::Middle => {
            if t.object.is_some() {
                append_units(
                    objects,
                    at + p.object.length as usize,
                    q,
                    x.timed,
                    x.aggregated,
                );
            }
        }
        FragmentationIndicator::Last => {
            if t.records != 0 {
                end_object(objects, at, p, t, h, q, rows, out);
            }
        }
    }
}

// What a packet hands out and holds.
fn commit(
    objects: &mut [u8],
    at: usize,
    pass: bool,
    p: Media,
    r: MediaOutcome,
    h: Header,
    b: &[u8],
    rows: &mut [u8],
    out: &mut [u8],
)
    requires { CanCommit at pass p r h b.now objects.old rows.old out.old }
    ensures { Committed at pass p h b.now objects.old rows.old out.old objects.new rows.new out.new }
{
    let k = r.header;
    match k {
        None => {}
        Some(x) => {
            if r.taken {
                commit_units(x, objects, at, p, r, h, b, rows, out);
                return;
            }
            if passes_on(pass, h.scramble_info, k) {
                pass_on(x.mpu_sequence_number, h, b, rows, out);
            }
        }
    }
}

// And what it leaves in the state.
#[tactic(auto, using(crate::proofs::MediaPushes::all_place, crate::proofs::MediaPushes::all_can, crate::proofs::MediaPushes::all_done))]
fn commit_all(
    state: &mut [u8],
    objects: &mut [u8],
    l: Limits,
    place_for: PlaceFor,
    p: Media,
    r: MediaOutcome,
    h: Header,
    b: &[u8],
    rows: &mut [u8],
    out: &mut [u8],
)
    requires { CanCommitAll l place_for p r h b.now state.old objects.old rows.old out.old }
    ensures { CommittedAll l place_for p r h b.now state.old objects.old rows.old out.old state.new objects.new rows.new out.new }
{
    let at = index_of(place_for) * l.mfu_area as usize;
    commit(objects, at, l.pass_scrambled, p, r, h, b, rows, out);
    let m = reassembler::place_after(
        h.packet_id as u32,
        p,
        h.sequence,
        h.scramble_info,
        r.header,
        r.bad,
        r.units,
    );
    store_place(state, place_for, m);
}

// A media packet with the MMTP header h and the payload b. Of what is lent, the state and the objects are looked at.
#[tactic(auto, using(crate::proofs::MediaPushes::push_place_for, crate::proofs::MediaPushes::push_index, crate::proofs::MediaPushes::push_outcome, crate::proofs::MediaPushes::pushed_no, crate::proofs::Refusals::err_number))]
pub(crate) fn push_media(
    session: &mut SessionMut<'_>,
    h: Header,
    b: &[u8],
    rows: &mut [u8],
    out: &mut [u8],
) -> Result<HandedOut, Refusal>
    requires { CanPushMedia (lent_mut session.old) b.now }
    ensures same_buffers { SameBuffers session.old session.new }
    ensures pushed { MediaPushed (lent_mut session.old) rows.old out.old (media_of h b.now) (answered result).number (answered result).records (answered result).bytes (lent_mut session.new) rows.new out.new }
{
    let state = &mut *session.state;
    let objects = &mut *session.objects;
    let l = head::load_limits(state);
    let place_for = media_place_for(state, l, h.packet_id);
    let p = place_in(state, place_for);
    let r = reassembler::media_outcome(p, h.sequence, h.scramble_info, h.rap, b);
    let a = answer_of(
        place_for,
        l,
        h.scramble_info,
        r,
        b.len() as u64,
        rows.len() as u64,
        out.len() as u64,
    );
    let taken = a.is_ok();
    if taken {
        commit_all(state, objects, l, place_for, p, r, h, b, rows, out);
    }
    a
}
