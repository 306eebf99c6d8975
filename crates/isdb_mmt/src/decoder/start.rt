// The copies that a walk over tables starts with, from the session.
ghost use Rattle.std.specs.Prelude.{◌≡◌, ◌+◌, ◌*◌, ◌≤◌, length};
ghost use Rattle.isdb_mmt.specs.Memory.Lent.{part};
ghost use Rattle.isdb_mmt.specs.Memory.Layout.{section_places, state_size};
ghost use Rattle.isdb_mmt.specs.Pushes.TableOutcome.{index_size, recent_length};
ghost use Rattle.isdb_mmt.specs.Pushes.Start.{recent_at, start_of, counters_with, walk_start, latest_with, tables_ask, CanGo};
ghost use Rattle.isdb_mmt.specs.Memory.Refusals.{answer_number};

use crate::decoder::counts::Counters;
use crate::decoder::head::Latest;
use crate::decoder::layout::{MOST_SECTIONS, SECTION_PLACES, SECTION_SIZE};
use crate::decoder::limits::Limits;
use crate::decoder::refusal::Refusal;
use crate::decoder::table_outcome::Recent;
use crate::decoder::walk::WalkState;
use crate::decoder::{head, place};
use isdb_tlv::bytes;

// All section places.
pub(crate) const INDEX_SIZE: usize = MOST_SECTIONS as usize * SECTION_SIZE;

#[tactic(auto, using(crate::proofs::Starting::index_length))]
pub(crate) fn load_index(ix: &mut [u8], state: &[u8])
    requires { (length ix.old ≡ index_size) × (state_size ≤ length state.now) }
    ensures { ix.new ≡ part section_places index_size state.now }
{
    ix.copy_from_slice(bytes::part(state, SECTION_PLACES, INDEX_SIZE));
}

// The MPT, the PLT or the TOT that lies in area i, where there is one.
pub(crate) fn recent_in(tables: &[u8], i: usize, area: usize, there: bool, n: u32) -> Option<Recent>
    requires { (i + 1) * area ≤ length tables.now }
    ensures { result ≡ recent_at tables.now (i * area) there n }
{
    if !there {
        return None;
    }
    let b = place::in_area(tables, i, area, n as usize);
    Some(Recent {
        version: bytes::get_u8(b, 1),
        from: 0,
        length: n,
    })
}

pub(crate) fn start_of(
    c: Counters,
    used: usize,
    mpt: Option<Recent>,
    plt: Option<Recent>,
    tot: Option<Recent>,
) -> WalkState
    ensures { result ≡ start_of c used mpt plt tot }
{
    WalkState {
        used,
        tables: c.tables,
        crc_errors: c.crc_errors,
        malformed: c.malformed,
        version_changes: c.version_changes,
        split_errors: c.split_errors,
        message_malformed: c.message_malformed,
        mpt,
        plt,
        tot,
        longest: 0,
        full: false,
    }
}

// The counters with what a walk has counted.
pub(crate) fn counters_with(c: Counters, g: WalkState) -> Counters
    ensures { result ≡ counters_with c g }
{
    Counters {
        tables: g.tables,
        crc_errors: g.crc_errors,
        malformed: g.malformed,
        version_changes: g.version_changes,
        message_malformed: g.message_malformed,
        split_errors: g.split_errors,
        ..c
    }
}

// What a walk starts with in a session, with these counters and the MPT of a control id.
pub(crate) fn walk_start(state: &[u8], tables: &[u8], c: Counters, mpt: Option<Recent>) -> WalkState
    requires { CanGo state.now tables.now }
    ensures { result ≡ walk_start state.now tables.now c mpt }
{
    let l = head::load_limits(state);
    let u = head::load_used(state);
    let x = head::load_latest(state);
    let area = l.table_area as usize;
    let i = (l.sections + l.control_ids) as usize;
    let plt = recent_in(tables, i, area, x.plt, x.plt_length);
    let tot = recent_in(tables, i + 1, area, x.tot, x.tot_length);
    start_of(c, u.sections as usize, mpt, plt, tot)
}

// Questions 8 and 9 of the tables, after a walk.
#[tactic(auto, unfolding(crate::specs::Pushes::Start::tables_ask))]
pub(crate) fn tables_ask(l: Limits, g: WalkState) -> Result<(), Refusal>
    ensures { answer_number result ≡ tables_ask l g }
{
    if g.full || l.sections < g.used as u64 {
        return Err(Refusal::NoPlaceFree);
    }
    if l.table_area < g.longest as u64 {
        return Err(Refusal::AreaTooSmall);
    }
    Ok(())
}

// How long a table is, where it is there.
pub(crate) fn recent_length(r: Option<Recent>) -> u32
    ensures { result ≡ recent_length r }
{
    r.map_or(0, |x| x.length)
}

pub(crate) fn latest_with(g: WalkState) -> Latest
    ensures { result ≡ latest_with g }
{
    let plt = g.plt;
    let tot = g.tot;
    Latest {
        plt: plt.is_some(),
        plt_length: recent_length(plt),
        tot: tot.is_some(),
        tot_length: recent_length(tot),
    }
}
