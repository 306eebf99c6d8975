// The commit of a walk: what is logged goes from the message to its area, what is counted to the state. It decides nothing.
ghost use Rattle.std.specs.Prelude.{◌≡◌, ◌+◌, ◌*◌, ◌++◌, length, take, slice_index};
ghost use Rattle.isdb_tlv.specs.Fields.{written};
ghost use Rattle.isdb_mmt.specs.Memory.Lent.{over};
ghost use Rattle.isdb_mmt.specs.Formats.Part.{part_of};
ghost use Rattle.isdb_mmt.specs.Memory.Layout.{counters_place, section_places, section_size};
ghost use Rattle.isdb_mmt.specs.Memory.Session.{counters_fields};
ghost use Rattle.isdb_mmt.specs.Pushes.MediaPush.{with_used};
ghost use Rattle.isdb_mmt.specs.Pushes.TableOutcome.{place_at};
ghost use Rattle.isdb_mmt.specs.Pushes.PendingTables.{logged};
ghost use Rattle.isdb_mmt.specs.Pushes.Commit.{put_one, put_tables, put_recent, put_areas, logged_from, CanPut, CanStore, CanStoreOne, CanStoreRecent, CanStoreAreas, CanStoreState};

use crate::decoder::counts::Counters;
use crate::decoder::head::Used;
use crate::decoder::layout::{SECTION_PLACES, SECTION_SIZE};
use crate::decoder::limits::Limits;
use crate::decoder::section::section_at;
use crate::decoder::table_outcome::Recent;
use crate::decoder::walk::WalkState;
use crate::decoder::{head, joined, place};
use crate::part::Part;
use isdb_tlv::bytes;

// A part of a message in two pieces, to a place.
#[tactic(auto, using(crate::proofs::Commits::put_done))]
fn put_part(s: &mut [u8], at: usize, a: &[u8], b: &[u8], p: Part)
    requires { CanPut s.old at (a.now ++ b.now) p }
    ensures { s.new ≡ over at (part_of (a.now ++ b.now) p) s.old }
{
    let x = p.of(a);
    let q = joined::behind(a.len(), p);
    let n = x.len();
    place::put_bytes(s, at, x);
    place::put_bytes(s, at + n, q.of(b));
}

fn store_one(tables: &mut [u8], ix: &[u8], log: &[u64], i: usize, area: usize, a: &[u8], b: &[u8])
    requires { CanStoreOne tables.old ix.now log.now i area (a.now ++ b.now) }
    ensures { tables.new ≡ put_one (i * area) (logged (place_at ix.now i) (slice_index log.now i)) (a.now ++ b.now) tables.old }
{
    let f = log[i];
    if f == 0 {
        return;
    }
    let x = section_at(ix, SECTION_SIZE * i);
    let p = Part {
        start: (f - 1) as usize,
        length: x.length as usize,
    };
    put_part(tables, i * area, a, b, p);
}

// The sections of the places that are logged, each to its area.
#[tactic(auto, using(crate::proofs::Commits::storing_on, crate::proofs::Commits::storing_end))]
pub(crate) fn store_sections(
    tables: &mut [u8],
    ix: &[u8],
    log: &[u64],
    used: usize,
    area: usize,
    a: &[u8],
    b: &[u8],
)
    requires { CanStore tables.old ix.now log.now used area (a.now ++ b.now) }
    ensures { tables.new ≡ put_tables area 0 (logged_from used 0 ix.now log.now) (a.now ++ b.now) tables.old }
{
    for i in 0..used {
        store_one(tables, ix, log, i, area, a, b);
    }
}

// An MPT, a PLT or a TOT that is logged, to area i.
pub(crate) fn store_recent(
    tables: &mut [u8],
    r: Option<Recent>,
    i: usize,
    area: usize,
    a: &[u8],
    b: &[u8],
)
    requires { CanStoreRecent tables.old r i area (a.now ++ b.now) }
    ensures { tables.new ≡ put_recent (i * area) r (a.now ++ b.now) tables.old }
{
    let Some(x) = r else {
        return;
    };
    if x.from == 0 {
        return;
    }
    let p = Part {
        start: (x.from - 1) as usize,
        length: x.length as usize,
    };
    put_part(tables, i * area, a, b, p);
}

// All that a walk has logged: sections, then the PLT, the TOT and the MPT of control place i.
pub(crate) fn store_areas(
    tables: &mut [u8],
    ix: &[u8],
    log: &[u64],
    g: WalkState,
    l: Limits,
    i: usize,
    a: &[u8],
    b: &[u8],
)
    requires { CanStoreAreas tables.old ix.now log.now g l i (a.now ++ b.now) }
    ensures { tables.new ≡ put_areas l i g (logged_from g.used 0 ix.now log.now) (a.now ++ b.now) tables.old }
{
    let area = l.table_area as usize;
    let n = (l.sections + l.control_ids) as usize;
    let k = l.sections as usize + i;
    let mpt = g.mpt;
    let plt = g.plt;
    let tot = g.tot;
    let used = g.used;
    store_sections(tables, ix, log, used, area, a, b);
    store_recent(tables, plt, n, area, a, b);
    store_recent(tables, tot, n + 1, area, a, b);
    store_recent(tables, mpt, k, area, a, b);
}

// Places in use, the places of the kept sections, counters.
pub(crate) fn store_state(state: &mut [u8], ix: &[u8], u: Used, c: Counters)
    requires { CanStoreState state.old ix.now u }
    ensures { state.new ≡ over counters_place (written (counters_fields c)) (over section_places (take (section_size * u.sections) ix.now) (with_used u state.old)) }
{
    let n = SECTION_SIZE * u.sections as usize;
    head::store_used(state, u);
    place::put_bytes(state, SECTION_PLACES, bytes::part(ix, 0, n));
    head::store_counters(state, c);
}
