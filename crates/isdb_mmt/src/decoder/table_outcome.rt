// What is decided of a table, against an index of the kept sections. Nothing is written, and a section's CRC is read once.
ghost use Rattle.std.specs.Prelude.{◌≡◌, ◌*◌, ◌<◌, ◌≤◌, ◌++◌, length, is_ok};
ghost use Rattle.isdb_mmt.specs.Decoder.Maps.{one};
ghost use Rattle.isdb_mmt.specs.Memory.Layout.{most_sections, most_table_area};
ghost use Rattle.isdb_mmt.specs.Decoder.Kept.{key_of, section_of, table_read, table_by_id, mpt_parses, plt_parses, tot_parses, tot_crc_bad, declared_table, declared_section};
ghost use Rattle.isdb_mmt.specs.Formats.Mpt.{mpt_of};
ghost use Rattle.isdb_mmt.specs.Formats.Plt.{plt_of};
ghost use Rattle.isdb_mmt.specs.Formats.Tot.{tot_of};
ghost use Rattle.isdb_mmt.specs.Pushes.TableOutcome.{index_size, index_of, body_read, body_from, body_put, version_for, outcome, changes_to, section_outcome, long_outcome, mpt_outcome, plt_outcome, tot_outcome, table_outcome, CanDecide};

use crate::decoder::layout::SECTION_SIZE;
use crate::decoder::place;
use crate::decoder::section::{KeptSection, section_at};
use crate::table::section::{Parsed, SectionError, SectionHeader};
use crate::table::{amt, bit, eit, mpt, nit, plt, sdt, section, tot};
use isdb_tlv::bytes;

// Whether a section's body parses, and how many descriptor loops break on the way.
#[derive(Clone, Copy)]
pub(crate) struct BodyRead {
    pub ok: bool,
    pub breaks: usize,
}

// An MPT, a PLT or a TOT that is kept: its version, where it lies (0: in its area, else one more than its place in the message)
// and its length.
#[derive(Clone, Copy)]
pub(crate) struct Recent {
    pub version: u8,
    pub from: u64,
    pub length: u32,
}

// What a table leaves to do.
#[derive(Clone, Copy)]
pub(crate) enum TableAction {
    Nothing,
    Other(u8),
    Mpt(u8, u32),
    Plt(u8, u32),
    Tot(u32),
    // A section to the place with this index, the next free one among them.
    Put(usize, KeptSection),
}

// What a table adds to the counts, and what it leaves to do.
#[derive(Clone, Copy)]
pub(crate) struct TableOutcome {
    pub crc_errors: u64,
    pub malformed: u64,
    pub version_changes: u64,
    pub breaks: u64,
    pub act: TableAction,
}

#[tactic(auto, unfolding(isdb_tlv::specs::Bytes::be))]
fn key_of(t: &[u8]) -> u32
    ensures { result ≡ key_of t.now }
{
    bytes::get_u8(t, 0) as u32 * 16777216
        + bytes::get_u16(t, 3) as u32 * 256
        + bytes::get_u8(t, 6) as u32
}

// Whether a body parses, and how many descriptor loops break on the way.
fn told<T: Copy>(p: Parsed<T>) -> BodyRead
    ensures { result ≡ body_read (is_ok p.result) p.breaks }
{
    BodyRead {
        ok: p.result.is_ok(),
        breaks: p.breaks,
    }
}

// The same of a body whose descriptor loops do not count as broken.
fn unbroken<T: Copy>(r: Result<T, SectionError>) -> BodyRead
    ensures { result ≡ body_read (is_ok r) 0 }
{
    BodyRead {
        ok: r.is_ok(),
        breaks: 0,
    }
}

// The body of a section whose header is good. The readers answer different types, so no list of functions holds them.
#[tactic(auto, unfolding(crate::specs::Pushes::TableOutcome::body_from))]
pub(crate) fn body_read(id: u8, h: SectionHeader, b: &[u8]) -> BodyRead
    ensures { result ≡ body_from id h b.now }
{
    match id {
        0x9D => told(bit::read(h, b)),
        0x9F | 0xA0 => told(sdt::read(h, b)),
        0x40 | 0x41 => unbroken(nit::read(h, b)),
        0xFE => unbroken(amt::read(h, b)),
        _ => told(eit::read(h, b)),
    }
}

// A table that adds nothing and leaves nothing to do.
const SAME: TableOutcome = TableOutcome {
    crc_errors: 0,
    malformed: 0,
    version_changes: 0,
    breaks: 0,
    act: TableAction::Nothing,
};

// What a good section leaves, with what it counts as a version change, for the place i.
#[tactic(auto, using(crate::proofs::TableOutcomes::body_bad, crate::proofs::TableOutcomes::body_good))]
fn body_outcome(
    t: &[u8],
    h: SectionHeader,
    b: &[u8],
    change: u64,
    i: usize,
    key: u32,
) -> TableOutcome
    ensures { result ≡ body_put t.now h b.now change i key }
{
    let x = body_read(bytes::get_u8(t, 0), h, b);
    let breaks = x.breaks as u64;
    if !x.ok {
        return TableOutcome {
            malformed: 1,
            version_changes: change,
            breaks,
            ..SAME
        };
    }
    let d = bytes::part(t, 0, bytes::get_u12(t, 1) as usize + 3);
    TableOutcome {
        version_changes: change,
        breaks,
        act: TableAction::Put(
            i,
            KeptSection {
                key,
                version: h.version,
                length: d.len() as u32,
            },
        ),
        ..SAME
    }
}

fn bad() -> TableOutcome
    ensures { result ≡ outcome 0 1 0 0 TableAction.Nothing }
{
    TableOutcome {
        malformed: 1,
        ..SAME
    }
}

fn crc_bad() -> TableOutcome
    ensures { result ≡ outcome 1 0 0 0 TableAction.Nothing }
{
    TableOutcome {
        crc_errors: 1,
        ..SAME
    }
}

fn other(id: u8) -> TableOutcome
    ensures { result ≡ outcome 0 0 0 0 (TableAction.Other id) }
{
    TableOutcome {
        act: TableAction::Other(id),
        ..SAME
    }
}

// A good section, by what the index has of its key.
#[tactic(auto, using(crate::proofs::TableOutcomes::found_place, crate::proofs::TableOutcomes::version_new))]
fn version_outcome(ix: &[u8], used: usize, t: &[u8], h: SectionHeader, b: &[u8]) -> TableOutcome
    requires { (used ≤ most_sections) × (length ix.now ≡ index_size) }
    ensures { result ≡ version_for (index_of used ix.now) t.now h b.now }
{
    let key = key_of(t);
    match place::find(ix, 0, SECTION_SIZE, used, key) {
        Some(i) => {
            let k = section_at(ix, SECTION_SIZE * i);
            if k.version == h.version {
                return SAME;
            }
            body_outcome(t, h, b, 1, i, key)
        }
        None => body_outcome(t, h, b, 0, used, key),
    }
}

// A section that reaches `keep`.
#[tactic(auto, using(crate::proofs::TableOutcomes::outcome_good, crate::proofs::TableOutcomes::outcome_crc, crate::proofs::TableOutcomes::outcome_short, crate::proofs::TableOutcomes::outcome_bad))]
pub(crate) fn section_outcome(ix: &[u8], used: usize, t: &[u8]) -> TableOutcome
    requires { (used ≤ most_sections) × (length ix.now ≡ index_size) }
    ensures { result ≡ section_outcome (index_of used ix.now) (section_of t.now) }
{
    match section::long_section(t) {
        Ok(h) => { version_outcome(ix, used, t, h, h.body.of(t)) }
        Err(SectionError::Crc) => crc_bad(),
        Err(_) => bad(),
    }
}

#[tactic(auto, using(crate::proofs::TableOutcomes::long_short, crate::proofs::TableOutcomes::long_section))]
fn long_outcome(ix: &[u8], used: usize, t: &[u8]) -> TableOutcome
    requires { (used ≤ most_sections) × (length ix.now ≡ index_size) }
    ensures { result ≡ long_outcome (index_of used ix.now) t.now }
{
    if t.len() < 7 {
        return bad();
    }
    section_outcome(ix, used, t)
}

// 1 for a kept table of another version.
fn change(r: Option<Recent>, v: u8) -> u64
    ensures { result ≡ one (changes_to r v) }
{
    u64::from(r.is_some_and(|x| x.version != v))
}

#[tactic(auto, using(crate::proofs::TableOutcomes::mpt_some))]
fn mpt_outcome(m: Option<Recent>, t: &[u8]) -> TableOutcome
    ensures { result ≡ mpt_outcome m (mpt_parses (mpt_of t.now).mpt) (mpt_of t.now).breaks (declared_table t.now) }
{
    let x = mpt::parse(t);
    let breaks = x.breaks as u64;
    match x.mpt {
        None => TableOutcome { breaks, ..bad() },
        Some(y) => {
            let d = bytes::part(t, 0, bytes::get_u16(t, 2) as usize + 4);
            let v = bytes::get_u8(d, 1);
            TableOutcome {
                version_changes: change(m, v),
                breaks,
                act: TableAction::Mpt(v, d.len() as u32),
                ..SAME
            }
        }
    }
}

#[tactic(auto, using(crate::proofs::TableOutcomes::plt_some))]
fn plt_outcome(p: Option<Recent>, t: &[u8]) -> TableOutcome
    ensures { result ≡ plt_outcome p (plt_parses (plt_of t.now)) (declared_table t.now) }
{
    match plt::parse(t) {
        None => bad(),
        Some(y) => {
            let d = bytes::part(t, 0, bytes::get_u16(t, 2) as usize + 4);
            let v = bytes::get_u8(d, 1);
            TableOutcome {
                version_changes: change(p, v),
                act: TableAction::Plt(v, d.len() as u32),
                ..SAME
            }
        }
    }
}

fn tot_outcome(t: &[u8]) -> TableOutcome
    ensures { result ≡ tot_outcome (tot_parses (tot_of t.now).result) (tot_crc_bad (tot_of t.now).result) (tot_of t.now).breaks (declared_section t.now) }
{
    let x = tot::parse(t);
    let breaks = x.breaks as u64;
    match x.result {
        Ok(y) => {
            let d = bytes::part(t, 0, bytes::get_u12(t, 1) as usize + 3);
            TableOutcome {
                breaks,
                act: TableAction::Tot(d.len() as u32),
                ..SAME
            }
        }
        Err(SectionError::Crc) => TableOutcome {
            breaks,
            ..crc_bad()
        },
        Err(_) => TableOutcome { breaks, ..bad() },
    }
}

#[tactic(auto, unfolding(crate::specs::Decoder::Kept::table_by_id, crate::specs::Pushes::TableOutcome::table_outcome))]
fn by_id(
    ix: &[u8],
    used: usize,
    m: Option<Recent>,
    p: Option<Recent>,
    id: u8,
    t: &[u8],
) -> TableOutcome
    requires { (used ≤ most_sections) × (length ix.now ≡ index_size) }
    ensures { result ≡ table_outcome (index_of used ix.now) m p (table_by_id id t.now) }
{
    match id {
        0x11..=0x20 => mpt_outcome(m, t),
        0x80 => plt_outcome(p, t),
        0xA1 => tot_outcome(t),
        0x8B..=0x9B | 0x9D | 0x9F | 0xA0 => long_outcome(ix, used, t),
        _ => other(id),
    }
}

// What is decided of a table of a message.
#[tactic(auto, using(crate::proofs::TableOutcomes::outcome_empty, crate::proofs::TableOutcomes::outcome_by_id))]
pub(crate) fn outcome_of(
    ix: &[u8],
    used: usize,
    m: Option<Recent>,
    p: Option<Recent>,
    t: &[u8],
) -> TableOutcome
    requires { (used ≤ most_sections) × (length ix.now ≡ index_size) }
    ensures { result ≡ table_outcome (index_of used ix.now) m p (table_read t.now) }
{
    if t.len() == 0 {
        return SAME;
    }
    by_id(ix, used, m, p, bytes::get_u8(t, 0), t)
}

// What is decided of a table with bytes in two pieces, which are gathered first.
fn gathered(
    assembled: &mut [u8],
    ix: &[u8],
    used: usize,
    m: Option<Recent>,
    p: Option<Recent>,
    a: &[u8],
    b: &[u8],
) -> TableOutcome
    requires { CanDecide ix.now used a.now b.now × (length assembled.old ≡ most_table_area) }
    ensures { result ≡ table_outcome (index_of used ix.now) m p (table_read (a.now ++ b.now)) }
{
    let n = a.len();
    place::put_bytes(assembled, 0, a);
    place::put_bytes(assembled, n, b);
    outcome_of(ix, used, m, p, bytes::part(assembled, 0, n + b.len()))
}

// The same, with what it is gathered in: few tables lie across two pieces, and only for them is it cleared.
fn across(
    ix: &[u8],
    used: usize,
    m: Option<Recent>,
    p: Option<Recent>,
    a: &[u8],
    b: &[u8],
) -> TableOutcome
    requires { CanDecide ix.now used a.now b.now }
    ensures { result ≡ table_outcome (index_of used ix.now) m p (table_read (a.now ++ b.now)) }
{
    let mut assembled = [0u8; 65539];
    gathered(&mut assembled, ix, used, m, p, a, b)
}

// What is decided of a table in two pieces, one behind the other.
pub(crate) fn joined_outcome(
    ix: &[u8],
    used: usize,
    m: Option<Recent>,
    p: Option<Recent>,
    a: &[u8],
    b: &[u8],
) -> TableOutcome
    requires { CanDecide ix.now used a.now b.now }
    ensures { result ≡ table_outcome (index_of used ix.now) m p (table_read (a.now ++ b.now)) }
{
    if b.len() == 0 {
        return outcome_of(ix, used, m, p, a);
    }
    if a.len() == 0 {
        return outcome_of(ix, used, m, p, b);
    }
    across(ix, used, m, p, a, b)
}
