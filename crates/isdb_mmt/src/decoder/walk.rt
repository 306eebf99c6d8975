// One walk over the tables of a message or over the sections of a control packet, on local copies with a log.
ghost use Rattle.std.specs.Prelude.{◌≡◌, ◌+◌, ◌*◌, ◌<◌, ◌≤◌, [], ◌∷◌, ◌++◌, length, slice_index, slice_set};
ghost use Rattle.isdb_mmt.specs.Memory.Layout.{most_sections, most_count, table_ids};
ghost use Rattle.isdb_mmt.specs.Formats.Message.{tables_from};
ghost use Rattle.isdb_mmt.specs.Decoder.Reassembly.{tables_of, cut_of};
ghost use Rattle.isdb_mmt.specs.Decoder.Kept.{table_read};
ghost use Rattle.isdb_mmt.specs.Pushes.Placed.{join_of, placed, placed_of, placed_from, malformed_from, placed_cut, placed_sections};
ghost use Rattle.isdb_mmt.specs.Pushes.PendingTables.{most_before, section_read, recent as recent_of, CanApply, CanCount, counted_by, cut_short, used_with, Applied, Walked, at as placed_at, CanTakeSection, CanWalkSections, CanTake, CanWalk, in_body};

use crate::decoder::layout::{MOST_SECTIONS, SECTION_SIZE};
use crate::decoder::section::put_section_at;
use crate::decoder::table_outcome::{Recent, TableAction, TableOutcome};
use crate::decoder::{joined, table_outcome};
use crate::message::Content;
use crate::part::Part;
use crate::walk_step::WalkStep;
use isdb_tlv::{bytes, si};

const SECTIONS: usize = MOST_SECTIONS as usize;

// What the walk carries.
#[derive(Clone, Copy)]
pub(crate) struct WalkState {
    pub used: usize,
    pub tables: u64,
    pub crc_errors: u64,
    pub malformed: u64,
    pub version_changes: u64,
    pub split_errors: u64,
    // Messages, and tables of messages, that are cut short.
    pub message_malformed: u64,
    pub mpt: Option<Recent>,
    pub plt: Option<Recent>,
    pub tot: Option<Recent>,
    pub longest: u32,
    // A section found no place.
    pub full: bool,
}

fn next_used(used: usize, i: usize) -> usize
    requires { i ≤ most_sections }
    ensures { result ≡ used_with used i }
{
    used.max(i + 1)
}

fn recent(version: u8, from: u64, length: u32) -> Option<Recent>
    ensures { result ≡ recent_of version from length }
{
    Some(Recent {
        version,
        from,
        length,
    })
}

fn counted(g: WalkState, t: TableOutcome) -> WalkState
    requires { CanCount g t }
    ensures { result ≡ counted_by g t }
{
    WalkState {
        tables: g.tables + 1,
        crc_errors: g.crc_errors + t.crc_errors,
        malformed: g.malformed + t.malformed,
        version_changes: g.version_changes + t.version_changes,
        split_errors: g.split_errors + t.breaks,
        ..g
    }
}

// A message, or a table of one, is cut short.
fn cut_short(g: WalkState) -> WalkState
    requires { g.message_malformed ≤ most_before }
    ensures { result ≡ cut_short g }
{
    WalkState {
        message_malformed: g.message_malformed + 1,
        ..g
    }
}

fn count_other(others: &mut [u64], id: u8)
    requires { (length others.old ≡ table_ids) × (slice_index others.old id ≤ most_before) }
    ensures { others.new ≡ slice_set others.old id (slice_index others.old id + 1) }
{
    others[id as usize] += 1;
}

// One step on the copies.
pub(crate) fn apply(
    ix: &mut [u8],
    log: &mut [u64],
    others: &mut [u64],
    g: WalkState,
    t: TableOutcome,
    from: u64,
) -> WalkState
    requires { CanApply ix.old log.old others.old g t }
    ensures { Applied ix.old log.old others.old g t from result ix.new log.new others.new }
{
    if g.full {
        return g;
    }
    let c = counted(g, t);
    match t.act {
        TableAction::Nothing => c,
        TableAction::Other(id) => {
            count_other(others, id);
            c
        }
        TableAction::Mpt(v, n) => WalkState {
            mpt: recent(v, from, n),
            longest: c.longest.max(n),
            ..c
        },
        TableAction::Plt(v, n) => WalkState {
            plt: recent(v, from, n),
            longest: c.longest.max(n),
            ..c
        },
        TableAction::Tot(n) => WalkState {
            tot: recent(0, from, n),
            longest: c.longest.max(n),
            ..c
        },
        TableAction::Put(i, x) => {
            if SECTIONS <= i {
                return WalkState { full: true, ..c };
            }
            put_section_at(ix, SECTION_SIZE * i, x);
            log[i] = from;
            WalkState {
                used: next_used(c.used, i),
                longest: c.longest.max(x.length),
                ..c
            }
        }
    }
}

// A section of a control packet's data, which starts at a place there.
fn section(
    ix: &mut [u8],
    log: &mut [u64],
    others: &mut [u64],
    g: WalkState,
    t: &[u8],
    at: usize,
) -> WalkState
    requires { CanTakeSection ix.old log.old others.old g t.now at }
    ensures { Walked section_read ix.old log.old others.old g (placed_at at t.now ∷ []) 1 0 result ix.new log.new others.new }
{
    let x = table_outcome::section_outcome(ix, g.used, t);
    apply(ix, log, others, g, x, at as u64 + 1)
}

// The sections of a control packet's data.
pub(crate) fn sections(
    ix: &mut [u8],
    log: &mut [u64],
    others: &mut [u64],
    start: WalkState,
    b: &[u8],
) -> WalkState
    requires { CanWalkSections ix.old log.old others.old start b.now }
    ensures { Walked section_read ix.old log.old others.old start (placed_sections b.now 0) (length b.now + 1) 0 result ix.new log.new others.new }
{
    let mut g = start;
    // By a cursor: where the next section is looked for is known only once this one is found.
    let mut at: usize = 0;
    while let Some(x) = si::next_section(b, at) {
        let k = x.offset;
        let n = x.size;
        g = section(ix, log, others, g, bytes::part(b, k, n), k);
        at = k + n;
    }
    g
}

// A table that is a part of a message, or of its body, which starts at a place of the joined data.
fn table(
    ix: &mut [u8],
    log: &mut [u64],
    others: &mut [u64],
    g: WalkState,
    a: &[u8],
    b: &[u8],
    p: Part,
    from: usize,
) -> WalkState
    requires { CanTake ix.old log.old others.old g (a.now ++ b.now) p from }
    ensures { Walked table_read ix.old log.old others.old g (placed from (a.now ++ b.now) p ∷ []) 1 0 result ix.new log.new others.new }
{
    let k = from + p.start;
    let q = joined::behind(a.len(), p);
    let x = table_outcome::joined_outcome(ix, g.used, g.mpt, g.plt, p.of(a), q.of(b));
    apply(ix, log, others, g, x, k as u64 + 1)
}

// The tables of a PA message's body, which starts at a place of the joined data.
fn tables(
    ix: &mut [u8],
    log: &mut [u64],
    others: &mut [u64],
    start: WalkState,
    a: &[u8],
    b: &[u8],
    first: usize,
    from: usize,
) -> WalkState
    requires { CanWalk ix.old log.old others.old start (a.now ++ b.now) from (2 * most_count) }
    ensures { Walked table_read ix.old log.old others.old start (in_body (a.now ++ b.now) from first) (length (a.now ++ b.now) + 1) (tables_from (a.now ++ b.now) first).malformed result ix.new log.new others.new }
{
    let mut g = start;
    // By a cursor: a step has three cases, and two of them end the loop differently.
    let mut at = first;
    loop {
        match joined::next_table(a, b, at) {
            WalkStep::Entry(p, next) => {
                g = table(ix, log, others, g, a, b, p, from);
                at = next;
            }
            WalkStep::Malformed => return cut_short(g),
            WalkStep::End => return g,
        }
    }
}

// The tables of a message, which starts at a place of the joined data.
fn message(
    ix: &mut [u8],
    log: &mut [u64],
    others: &mut [u64],
    g: WalkState,
    a: &[u8],
    b: &[u8],
    from: usize,
) -> WalkState
    requires { CanWalk ix.old log.old others.old g (a.now ++ b.now) from (2 * most_count) }
    ensures { Walked table_read ix.old log.old others.old g (placed_of from (a.now ++ b.now)) (length (a.now ++ b.now) + 1) (tables_of (a.now ++ b.now)).malformed result ix.new log.new others.new }
{
    match joined::content_of(a, b) {
        Content::Malformed => cut_short(g),
        Content::Nothing => g,
        Content::Table(p) => table(ix, log, others, g, a, b, p, from),
        Content::Tables { body, at } => {
            let k = from + body.start;
            let q = joined::behind(a.len(), body);
            tables(ix, log, others, g, body.of(a), q.of(b), at, k)
        }
    }
}

// The tables of an aggregated payload's messages.
fn messages(
    ix: &mut [u8],
    log: &mut [u64],
    others: &mut [u64],
    start: WalkState,
    a: &[u8],
    b: &[u8],
    long: bool,
) -> WalkState
    requires { CanWalk ix.old log.old others.old start (a.now ++ b.now) 0 most_count }
    ensures { Walked table_read ix.old log.old others.old start (placed_from (a.now ++ b.now) long 0) (length (a.now ++ b.now) + 1) (malformed_from (a.now ++ b.now) long 0) result ix.new log.new others.new }
{
    let mut g = start;
    // By a cursor, for the same reason.
    let mut at: usize = 0;
    loop {
        match joined::next_message(a, b, long, at) {
            WalkStep::Entry(p, next) => {
                let q = joined::behind(a.len(), p);
                g = message(ix, log, others, g, p.of(a), q.of(b), p.start);
                at = next;
            }
            WalkStep::Malformed => return cut_short(g),
            WalkStep::End => return g,
        }
    }
}

// The tables of joined data: of one message, or of those that are aggregated.
pub(crate) fn joined_tables(
    ix: &mut [u8],
    log: &mut [u64],
    others: &mut [u64],
    g: WalkState,
    a: &[u8],
    b: &[u8],
    long: bool,
    aggregated: bool,
) -> WalkState
    requires { CanWalk ix.old log.old others.old g (a.now ++ b.now) 0 most_count }
    ensures { Walked table_read ix.old log.old others.old g (placed_cut (join_of long aggregated (a.now ++ b.now))) (length (a.now ++ b.now) + 1) (cut_of (join_of long aggregated (a.now ++ b.now))).malformed result ix.new log.new others.new }
{
    if aggregated {
        return messages(ix, log, others, g, a, b, long);
    }
    message(ix, log, others, g, a, b, 0)
}
