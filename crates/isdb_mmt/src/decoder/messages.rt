// A message packet: what becomes of its fragment, the message that is being joined, the place of its id.
// Translated from message.rs of isdb-rs (Apache-2.0, see NOTICE) and changed.
ghost use Rattle.std.specs.Prelude.{◌≡◌, ◌+◌, ◌*◌, ◌<◌, ◌≤◌, length};
ghost use Rattle.isdb_mmt.specs.Memory.Layout.{most_control_ids, state_size};
ghost use Rattle.isdb_mmt.specs.Memory.Check.{PlacesThere};
ghost use Rattle.isdb_mmt.specs.Pushes.Leaves.{control_place_for};
ghost use Rattle.isdb_mmt.specs.Pushes.Fragments.{in_sequence, grown_length, continued as continued_as, fragment_outcome, flags_in, joined_with, joined_still, joined_by, control_with, laid_by, area_by, completes, counted_with, fragment_counted, CanCount};
ghost use Rattle.isdb_mmt.specs.Pushes.FragmentPush.{blank_place, place_in, PlaceForThere, length_if, normal_latest, with_more, with_reassembly, with_counts, place_next, state_next, CanStoreReassembly, CanJoinAt, JoinedAt, received_fragment, CanReceive, CanJoin};
ghost use Rattle.isdb_mmt.specs.Decoder.Packet.{message_packet, message};
ghost use Rattle.isdb_mmt.specs.Memory.Lending.{lent_mut, SameBuffers};
ghost use Rattle.isdb_mmt.specs.Memory.Refusals.{answer_number};
ghost use Rattle.isdb_mmt.specs.Pushes.Push.{most_bytes, QuietPushed};

use crate::decoder::control::Control;
use crate::decoder::counts::Counters;
use crate::decoder::head::{Latest, Used};
use crate::decoder::layout::{CONTROL_PLACES, CONTROL_SIZE};
use crate::decoder::place::PlaceFor;
use crate::decoder::refusal::Refusal;
use crate::decoder::session::SessionMut;
use crate::decoder::{control, counts, head, place, reassembler};
use crate::message::{Division, Fragment};
use isdb_tlv::bytes;

// What becomes of a fragment.
#[derive(Clone, Copy)]
pub(crate) enum FragmentOutcome {
    // Fewer bytes than its header has.
    Short,
    // A whole message.
    Undivided,
    // The first of a message.
    First,
    // It continues none.
    Orphan,
    // It makes a message too long.
    Oversize,
    // It is joined to its message.
    Grown,
    // It makes its message whole.
    Whole,
}

// A message that is being joined.
#[derive(Clone, Copy)]
pub(crate) struct Joined {
    pub long_length: bool,
    pub aggregated: bool,
    pub length: u32,
}

// A fragment as it is received: which place its id has, what that place holds, and what becomes of the fragment.
#[derive(Clone, Copy)]
pub(crate) struct ReceivedFragment {
    pub place_for: PlaceFor,
    pub place: Control,
    pub outcome: FragmentOutcome,
}

// A message has at most 1,048,576 bytes.
const MOST_MESSAGE: u64 = 1048576;

// Whether a message is there to be continued: a gap takes it away.
#[tactic(auto, unfolding(crate::specs::Pushes::Fragments::in_sequence))]
fn in_sequence(c: Control, n: u32) -> bool
    ensures { result ≡ in_sequence c n }
{
    if c.joining {
        return !reassembler::is_gap(c.seen, c.sequence, n);
    }
    false
}

// The message's length with a fragment, whose data start at 2.
fn grown_length(c: Control, b: &[u8]) -> u64
    requires { length b.now ≤ most_bytes }
    ensures { result ≡ grown_length c b.now }
{
    c.length as u64 + bytes::rest(b, 2).len() as u64
}

#[tactic(auto, unfolding(crate::specs::Pushes::Fragments::continued))]
fn continued(ends: bool, c: Control, n: u32, b: &[u8]) -> FragmentOutcome
    requires { length b.now ≤ most_bytes }
    ensures { result ≡ continued_as ends c n b.now }
{
    if !in_sequence(c, n) {
        return FragmentOutcome::Orphan;
    }
    if MOST_MESSAGE < grown_length(c, b) {
        return FragmentOutcome::Oversize;
    }
    if ends {
        return FragmentOutcome::Whole;
    }
    FragmentOutcome::Grown
}

#[tactic(auto, using(isdb_tlv::proofs::Fields::be_one))]
pub(crate) fn flags_in(b: &[u8]) -> Fragment
    ensures { result ≡ flags_in b.now }
{
    Fragment::from(bytes::get_u8(b, 0))
}

#[tactic(auto, unfolding(crate::specs::Pushes::Fragments::fragment_outcome))]
pub(crate) fn fragment_outcome(c: Control, n: u32, b: &[u8]) -> FragmentOutcome
    requires { length b.now ≤ most_bytes }
    ensures { result ≡ fragment_outcome c n b.now }
{
    if b.len() < 2 {
        return FragmentOutcome::Short;
    }
    let x = flags_in(b);
    match x.division {
        Division::Undivided => FragmentOutcome::Undivided,
        Division::First => FragmentOutcome::First,
        Division::Middle => continued(false, c, n, b),
        Division::Last => continued(true, c, n, b),
    }
}

fn joined_with(long_length: bool, aggregated: bool, length: u32) -> Joined
    ensures { result ≡ joined_with long_length aggregated length }
{
    Joined {
        long_length,
        aggregated,
        length,
    }
}

fn joined_still(c: Control) -> Option<Joined>
    ensures { result ≡ joined_still c }
{
    if c.joining {
        return Some(joined_with(c.long_length, c.aggregated, c.length));
    }
    None
}

// The longest message that a fragment joins.
#[tactic(auto, unfolding(crate::specs::Pushes::Fragments::area_by))]
pub(crate) fn area_by(f: FragmentOutcome, c: Control, b: &[u8]) -> u64
    requires { length b.now ≤ most_bytes }
    ensures { result ≡ area_by f c b.now }
{
    match f {
        FragmentOutcome::First => bytes::rest(b, 2).len() as u64,
        FragmentOutcome::Grown | FragmentOutcome::Whole => grown_length(c, b),
        FragmentOutcome::Short
        | FragmentOutcome::Undivided
        | FragmentOutcome::Orphan
        | FragmentOutcome::Oversize => 0,
    }
}

// What is joined after a fragment, which needs an area of so many bytes.
#[tactic(auto, using(crate::proofs::Fragments::first_joined, crate::proofs::Fragments::grown_joined), unfolding(crate::specs::Pushes::Fragments::joined_by))]
pub(crate) fn joined_by(f: FragmentOutcome, c: Control, b: &[u8], area: u32) -> Option<Joined>
    requires { area ≡ area_by f c b.now }
    ensures { result ≡ joined_by f c b.now }
{
    match f {
        FragmentOutcome::Short => joined_still(c),
        FragmentOutcome::First => {
            let x = flags_in(b);
            Some(joined_with(x.long_length, x.aggregated, area))
        }
        FragmentOutcome::Grown => Some(joined_with(c.long_length, c.aggregated, area)),
        FragmentOutcome::Undivided
        | FragmentOutcome::Orphan
        | FragmentOutcome::Oversize
        | FragmentOutcome::Whole => None,
    }
}

// The place after a packet, with the MPT that is kept then.
pub(crate) fn control_with(
    id: u32,
    n: u32,
    j: Option<Joined>,
    mpt: bool,
    mpt_length: u32,
) -> Control
    ensures { result ≡ control_with id n j mpt mpt_length }
{
    Control {
        packet_id: id,
        seen: true,
        sequence: n,
        joining: j.is_some(),
        long_length: j.is_some_and(|x| x.long_length),
        aggregated: j.is_some_and(|x| x.aggregated),
        length: j.map_or(0, |x| x.length),
        mpt,
        mpt_length,
    }
}

// A fragment's data go to the area of its message.
#[tactic(auto, using(crate::proofs::Fragments::first_fits, crate::proofs::Fragments::grown_fits), unfolding(crate::specs::Pushes::Fragments::laid_by))]
pub(crate) fn put_fragment(
    messages: &mut [u8],
    i: usize,
    area: usize,
    f: FragmentOutcome,
    c: Control,
    b: &[u8],
)
    requires { i * area + area_by f c b.now ≤ length messages.old }
    ensures { messages.new ≡ laid_by f (i * area) c b.now messages.old }
{
    match f {
        FragmentOutcome::First => place::put_in_area(messages, i, area, 0, bytes::rest(b, 2)),
        FragmentOutcome::Grown => place::put_in_area(
            messages,
            i,
            area,
            c.length as usize,
            bytes::rest(b, 2),
        ),
        FragmentOutcome::Short
        | FragmentOutcome::Undivided
        | FragmentOutcome::Orphan
        | FragmentOutcome::Oversize
        | FragmentOutcome::Whole => {}
    }
}

fn counted_with(c: Counters, orphans: u64, oversizes: u64, bad: u64) -> Counters
    requires { CanCount c × ((orphans ≤ 1) × ((oversizes ≤ 1) × (bad ≤ 1))) }
    ensures { result ≡ counted_with c orphans oversizes bad }
{
    Counters {
        tlv_packets: c.tlv_packets + 1,
        orphan_fragments: c.orphan_fragments + orphans,
        oversize: c.oversize + oversizes,
        message_malformed: c.message_malformed + bad,
        ..c
    }
}

// A packet more, and what is counted of its fragment.
pub(crate) fn fragment_counted(f: FragmentOutcome, c: Counters) -> Counters
    requires { CanCount c }
    ensures { result ≡ fragment_counted f c }
{
    match f {
        FragmentOutcome::Short => counted_with(c, 0, 0, 1),
        FragmentOutcome::Orphan => counted_with(c, 1, 0, 0),
        FragmentOutcome::Oversize => counted_with(c, 0, 1, 0),
        FragmentOutcome::Undivided
        | FragmentOutcome::First
        | FragmentOutcome::Grown
        | FragmentOutcome::Whole => counted_with(c, 0, 0, 0),
    }
}

fn blank_place() -> Control
    ensures { result ≡ blank_place }
{
    Control {
        packet_id: 0,
        seen: false,
        sequence: 0,
        joining: false,
        long_length: false,
        aggregated: false,
        length: 0,
        mpt: false,
        mpt_length: 0,
    }
}

// Where a control id has its place, or takes the next one.
#[tactic(auto, using(crate::proofs::FragmentPushes::place_for_is))]
pub(crate) fn control_place_for(s: &[u8], id: u32) -> PlaceFor
    requires { PlacesThere s.now }
    ensures { result ≡ control_place_for s.now id }
{
    let l = head::load_limits(s);
    let u = head::load_used(s);
    place::place_for(
        s,
        CONTROL_PLACES,
        CONTROL_SIZE,
        u.control_ids as usize,
        l.control_ids as usize,
        id,
    )
}

// An id without a place has a blank one.
#[tactic(auto, unfolding(crate::specs::Pushes::FragmentPush::place_in))]
pub(crate) fn place_in(s: &[u8], t: PlaceFor) -> Control
    requires { PlaceForThere t }
    ensures { result ≡ place_in s.now t }
{
    let PlaceFor::Own(i) = t else {
        return blank_place();
    };
    control::load_control(s, i)
}

#[tactic(auto, using(crate::proofs::FragmentPushes::place_for_place, crate::proofs::FragmentPushes::received_is))]
pub(crate) fn receive(state: &[u8], id: u16, n: u32, b: &[u8]) -> ReceivedFragment
    requires { CanReceive state.now b.now }
    ensures { result ≡ received_fragment state.now (message_packet id n b.now) }
{
    let place_for = control_place_for(state, id as u32);
    let place = place_in(state, place_for);
    let outcome = fragment_outcome(place, n, b);
    ReceivedFragment {
        place_for,
        place,
        outcome,
    }
}

// Whether a message is whole with a fragment.
pub(crate) fn makes_whole(f: FragmentOutcome) -> bool
    ensures { result ≡ completes f }
{
    matches!(f, FragmentOutcome::Undivided | FragmentOutcome::Whole)
}

fn length_if(there: bool, n: u32) -> u32
    ensures { result ≡ length_if there n }
{
    if there {
        return n;
    }
    0
}

fn normal_latest(x: Latest) -> Latest
    ensures { result ≡ normal_latest x }
{
    Latest {
        plt_length: length_if(x.plt, x.plt_length),
        tot_length: length_if(x.tot, x.tot_length),
        ..x
    }
}

fn with_more(k: u32, u: Used) -> Used
    requires { (k ≤ 1) × (u.control_ids ≤ most_control_ids) }
    ensures { result ≡ with_more k u }
{
    Used {
        control_ids: u.control_ids + k,
        ..u
    }
}

// The place of an id, and the places in use.
pub(crate) fn store_reassembly(s: &mut [u8], i: usize, c: Control, u: Used)
    requires { (i < most_control_ids) × (state_size ≤ length s.old) }
    ensures { s.new ≡ with_reassembly i c u s.old }
{
    control::store_control(s, i, c);
    head::store_used(s, u);
}

// Counters, PLT and TOT.
pub(crate) fn store_counts(s: &mut [u8], k: Counters, x: Latest)
    requires { state_size ≤ length s.old }
    ensures { s.new ≡ with_counts k x s.old }
{
    head::store_counters(s, k);
    head::store_latest(s, x);
}

fn place_next(id: u32, n: u32, c: Control, f: FragmentOutcome, b: &[u8], area: u32) -> Control
    requires { area ≡ area_by f c b.now }
    ensures { result ≡ place_next id n c f b.now }
{
    let j = joined_by(f, c, b, area);
    control_with(id, n, j, c.mpt, length_if(c.mpt, c.mpt_length))
}

#[tactic(auto, using(crate::proofs::FragmentPushes::next_stored))]
fn store_next(s: &mut [u8], i: usize, k: u32, d: Control, f: FragmentOutcome)
    requires { CanStoreReassembly s.old i k }
    ensures { s.new ≡ state_next i k d f s.old }
{
    let counters = fragment_counted(f, counts::counters_of(s));
    let latest = normal_latest(head::load_latest(s));
    let used = with_more(k, head::load_used(s));
    store_reassembly(s, i, d, used);
    store_counts(s, counters, latest);
}

// A fragment at the place i of its id; k is 1 where it is a new one. Turned down where its area is too short, with nothing changed.
fn join_at(
    state: &mut [u8],
    messages: &mut [u8],
    i: usize,
    k: u32,
    id: u32,
    n: u32,
    b: &[u8],
    c: Control,
    f: FragmentOutcome,
) -> Result<(), Refusal>
    requires { CanJoinAt state.old messages.old i k b.now }
    ensures { JoinedAt state.old messages.old i k id n b.now c f (answer_number result) state.new messages.new }
{
    let l = head::load_limits(state);
    let area = area_by(f, c, b);
    if l.message_area < area {
        return Err(Refusal::AreaTooSmall);
    }
    store_next(state, i, k, place_next(id, n, c, f, b, area as u32), f);
    put_fragment(messages, i, l.message_area as usize, f, c, b);
    Ok(())
}

// A message packet with which no message is whole, from the place of its id and what becomes of it. Turned down with nothing changed.
pub(crate) fn push_fragment(
    session: &mut SessionMut<'_>,
    id: u16,
    n: u32,
    b: &[u8],
    y: ReceivedFragment,
) -> Result<(), Refusal>
    requires { CanJoin (lent_mut session.old) (message_packet id n b.now) y }
    ensures same_buffers { SameBuffers session.old session.new }
    ensures pushed { QuietPushed (lent_mut session.old) (message (message_packet id n b.now)) (answer_number result) (lent_mut session.new) }
{
    let c = y.place;
    let f = y.outcome;
    let state = &mut *session.state;
    let messages = &mut *session.messages;
    place::octets(state);
    match y.place_for {
        PlaceFor::Own(i) => join_at(state, messages, i, 0, id as u32, n, b, c, f),
        PlaceFor::Free(i) => join_at(state, messages, i, 1, id as u32, n, b, c, f),
        PlaceFor::NoneFree => Err(Refusal::NoPlaceFree),
    }
}
