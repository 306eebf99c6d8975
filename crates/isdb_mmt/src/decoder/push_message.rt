// A message packet: where a message is whole with it, its tables are walked over on copies, then committed, or nothing is changed.
ghost use Rattle.std.specs.Prelude.{◌≡◌, ◌+◌, ◌*◌, ◌≤◌, length};
ghost use Rattle.isdb_mmt.specs.Memory.Lent.{part};
ghost use Rattle.isdb_mmt.specs.Pushes.WholeMessage.{is_last, before_by, long_by, aggregated_by, join_by, held_in, WalkedWhole, CanWalkWhole, whole_ask, state_left, CanLeaveState, place_for_at, CanPushAt, CanPushWhole};
ghost use Rattle.isdb_mmt.specs.Decoder.Packet.{message_packet, message};
ghost use Rattle.isdb_mmt.specs.Memory.Lending.{lent_mut, SameBuffers};
ghost use Rattle.isdb_mmt.specs.Memory.Refusals.{answer_number};
ghost use Rattle.isdb_mmt.specs.Pushes.Push.{CanTakePacket, QuietPushed};

use crate::decoder::control::Control;
use crate::decoder::counts::Counters;
use crate::decoder::head::Used;
use crate::decoder::layout::{SECTION_PLACES, SECTION_SIZE};
use crate::decoder::limits::Limits;
use crate::decoder::messages::{FragmentOutcome, ReceivedFragment};
use crate::decoder::place::PlaceFor;
use crate::decoder::refusal::Refusal;
use crate::decoder::session::SessionMut;
use crate::decoder::walk::WalkState;
use crate::decoder::{commit, counts, head, messages, place, start, walk};
use isdb_tlv::bytes;

// Whether a message is whole with its last fragment.
fn is_last(f: FragmentOutcome) -> bool
    ensures { result ≡ is_last f }
{
    matches!(f, FragmentOutcome::Whole)
}

// What was joined before the packet, which lies in area i.
fn before_by(joined: &[u8], i: usize, area: usize, c: Control, last: bool) -> &[u8]
    requires { (i + 1) * area ≤ length joined.now }
    ensures { result.now ≡ before_by last (part (i * area) c.length joined.now) }
{
    if last {
        place::in_area(joined, i, area, c.length as usize)
    } else {
        bytes::part(joined, 0, 0)
    }
}

fn long_by(last: bool, c: Control, b: &[u8]) -> bool
    ensures { result ≡ long_by last c b.now }
{
    if last {
        c.long_length
    } else {
        messages::flags_in(b).long_length
    }
}

fn aggregated_by(last: bool, c: Control, b: &[u8]) -> bool
    ensures { result ≡ aggregated_by last c b.now }
{
    if last {
        c.aggregated
    } else {
        messages::flags_in(b).aggregated
    }
}

// The walk over the tables of the message, on the copies.
fn walk_whole(
    state: &[u8],
    others: &[u64],
    joined: &[u8],
    tables: &[u8],
    ix: &mut [u8],
    log: &mut [u64],
    mine: &mut [u64],
    i: usize,
    c: Control,
    last: bool,
    cs: Counters,
    b: &[u8],
) -> WalkState
    requires { CanWalkWhole state.now others.now joined.now tables.now ix.old log.old mine.old i c last cs b.now }
    ensures { WalkedWhole state.now others.now tables.now i c cs (join_by last c (held_in state.now joined.now i c) b.now) result ix.new log.new mine.new }
{
    let l = head::load_limits(state);
    start::load_index(ix, state);
    log.fill(0);
    mine.copy_from_slice(others);
    let k = l.sections as usize + i;
    let mpt = start::recent_in(tables, k, l.table_area as usize, c.mpt, c.mpt_length);
    let g = start::walk_start(state, tables, cs, mpt);
    let a = before_by(joined, i, l.message_area as usize, c, last);
    let long = long_by(last, c, b);
    let aggregated = aggregated_by(last, c, b);
    walk::joined_tables(ix, log, mine, g, a, bytes::rest(b, 2), long, aggregated)
}

// The questions, in their order: places, the message's area, the tables' areas.
#[tactic(auto, using(crate::proofs::WholePush::whole_no, crate::proofs::Refusals::refusal_some), unfolding(crate::specs::Pushes::WholeMessage::whole_ask))]
fn whole_ask(l: Limits, area: u64, g: WalkState) -> Result<(), Refusal>
    ensures { answer_number result ≡ whole_ask l area g }
{
    start::tables_ask(l, g)?;
    if l.message_area < area {
        return Err(Refusal::AreaTooSmall);
    }
    Ok(())
}

fn leave_state(
    state: &mut [u8],
    ix: &[u8],
    i: usize,
    k: u32,
    d: Control,
    cs: Counters,
    g: WalkState,
)
    requires { CanLeaveState state.old ix.now i k g }
    ensures { state.new ≡ state_left i k d cs g ix.now state.old }
{
    let u = head::load_used(state);
    let used = g.used;
    let v = Used {
        media_ids: u.media_ids,
        control_ids: u.control_ids + k,
        sections: used as u32,
    };
    messages::store_reassembly(state, i, d, v);
    place::put_bytes(
        state,
        SECTION_PLACES,
        bytes::part(ix, 0, SECTION_SIZE * used),
    );
    messages::store_counts(state, start::counters_with(cs, g), start::latest_with(g));
}

// At the place i of the packet's id; k is 1 where it is a new one.
fn whole_at(
    session: &mut SessionMut<'_>,
    ix: &mut [u8],
    log: &mut [u64],
    mine: &mut [u64],
    id: u16,
    n: u32,
    b: &[u8],
    y: ReceivedFragment,
    i: usize,
    k: u32,
) -> Result<(), Refusal>
    requires { CanPushAt (lent_mut session.old) (message_packet id n b.now) y i k ix.old log.old mine.old }
    ensures same_buffers { SameBuffers session.old session.new }
    ensures pushed { QuietPushed (lent_mut session.old) (message (message_packet id n b.now)) (answer_number result) (lent_mut session.new) }
{
    let state = &mut *session.state;
    let others = &mut *session.others;
    let joined = &mut *session.messages;
    let tables = &mut *session.tables;
    let c = y.place;
    let f = y.outcome;
    let l = head::load_limits(state);
    let cs = messages::fragment_counted(f, counts::counters_of(state));
    let last = is_last(f);
    let g = walk_whole(
        state, others, joined, tables, ix, log, mine, i, c, last, cs, b,
    );
    whole_ask(l, messages::area_by(f, c, b), g)?;
    let mpt = g.mpt;
    let length = start::recent_length(mpt);
    let d = messages::control_with(id as u32, n, None, mpt.is_some(), length);
    let a = before_by(joined, i, l.message_area as usize, c, last);
    commit::store_areas(tables, ix, log, g, l, i, a, bytes::rest(b, 2));
    others.copy_from_slice(mine);
    leave_state(state, ix, i, k, d, cs, g);
    Ok(())
}

// The same, with the copies that the walk goes over.
fn whole_in(
    session: &mut SessionMut<'_>,
    id: u16,
    n: u32,
    b: &[u8],
    y: ReceivedFragment,
    i: usize,
    k: u32,
) -> Result<(), Refusal>
    requires { CanPushWhole (lent_mut session.old) (message_packet id n b.now) y × ((y.place_for ≡ place_for_at i k) × (k ≤ 1)) }
    ensures same_buffers { SameBuffers session.old session.new }
    ensures pushed { QuietPushed (lent_mut session.old) (message (message_packet id n b.now)) (answer_number result) (lent_mut session.new) }
{
    let mut ix = [0u8; 4608];
    let mut log = [0u64; 512];
    let mut mine = [0u64; 256];
    whole_at(session, &mut ix, &mut log, &mut mine, id, n, b, y, i, k)
}

// A message packet with which a message is whole, from the place of its id and what becomes of it. Turned down with nothing changed.
#[tactic(auto, using(crate::proofs::WholeLaws::whole_full))]
fn push_whole(
    session: &mut SessionMut<'_>,
    id: u16,
    n: u32,
    b: &[u8],
    y: ReceivedFragment,
) -> Result<(), Refusal>
    requires { CanPushWhole (lent_mut session.old) (message_packet id n b.now) y }
    ensures same_buffers { SameBuffers session.old session.new }
    ensures pushed { QuietPushed (lent_mut session.old) (message (message_packet id n b.now)) (answer_number result) (lent_mut session.new) }
{
    match y.place_for {
        PlaceFor::Own(i) => whole_in(session, id, n, b, y, i, 0),
        PlaceFor::Free(i) => whole_in(session, id, n, b, y, i, 1),
        PlaceFor::NoneFree => Err(Refusal::NoPlaceFree),
    }
}

// A message packet, questions 5 to 7 answered. Turned down with nothing changed.
pub(crate) fn push_message(
    session: &mut SessionMut<'_>,
    id: u16,
    n: u32,
    b: &[u8],
) -> Result<(), Refusal>
    requires { CanTakePacket (lent_mut session.old) b.now }
    ensures same_buffers { SameBuffers session.old session.new }
    ensures pushed { QuietPushed (lent_mut session.old) (message (message_packet id n b.now)) (answer_number result) (lent_mut session.new) }
{
    let state = &mut *session.state;
    let y = messages::receive(state, id, n, b);
    if messages::makes_whole(y.outcome) {
        return push_whole(session, id, n, b, y);
    }
    messages::push_fragment(session, id, n, b, y)
}
