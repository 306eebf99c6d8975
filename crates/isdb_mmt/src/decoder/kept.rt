// Readings of the kept tables: where their bytes lie in the lent tables.
ghost use Rattle.std.specs.Prelude.{◌≡◌, ◌+◌, ◌*◌, ◌≤◌, length};
ghost use Rattle.std.specs.Prelude.{if◌then◌else◌, Some, None, Ok, Err};
ghost use Rattle.isdb_mmt.specs.declared.decoder.refusal.Refusal.TheVariants.{NotASession};
ghost use Rattle.isdb_mmt.specs.Decoder.Kept.{parses_as, mpt_parses, plt_parses, tot_parses};
ghost use Rattle.isdb_mmt.specs.Formats.Mpt.{mpt_of, assets_from};
ghost use Rattle.isdb_mmt.specs.Memory.Lent.{names_from};
ghost use Rattle.isdb_mmt.specs.Memory.Layout.{control_places, control_size};
ghost use Rattle.isdb_mmt.specs.Formats.Plt.{plt_of};
ghost use Rattle.isdb_mmt.specs.Formats.Tot.{tot_of};
ghost use Rattle.isdb_mmt.specs.Memory.Session.{limits_of, control_at};
ghost use Rattle.isdb_mmt.specs.Answers.Readings.{area_part, mpt_at, section_found, section_part, control_found, mpt_part, plt_part, tot_part, section_read, mpt_read, plt_read, tot_read, first_carried, asset_in, asset_if, asset_among, asset_read, most_name, least_from, ascending_from};
ghost use Rattle.isdb_mmt.specs.Memory.Lending.{lent_by};
ghost use Rattle.isdb_mmt.specs.Answers.KeptParts.{Reachable, AllInUse, AnArea, MptReachable};

use crate::decoder::layout::{CONTROL_PLACES, CONTROL_SIZE, SECTION_PLACES, SECTION_SIZE};
use crate::decoder::limits::Limits;
use crate::decoder::readings::CarriedAsset;
use crate::decoder::refusal::Refusal;
use crate::decoder::section::load_section;
use crate::decoder::session::Session;
use crate::decoder::{control, head, ids, place, table_outcome};
use crate::part::Part;
use crate::table::mpt::Asset;
use crate::table::section::long_section;
use crate::table::{mpt, plt, tot};

// Whether a section's header, its CRC and its body as the table of an id are good.
#[tactic(auto, using(crate::proofs::KeptParts::parses_good, crate::proofs::KeptParts::parses_bad))]
fn parses_as(id: u8, b: &[u8]) -> bool
    ensures { result ≡ parses_as id b.now }
{
    match long_section(b) {
        Ok(h) => { table_outcome::body_read(id, h, h.body.of(b)).ok }
        Err(e) => false,
    }
}

fn mpt_parses(b: &[u8]) -> bool
    ensures { result ≡ mpt_parses (mpt_of b.now).mpt }
{
    mpt::parse(b).mpt.is_some()
}

fn plt_parses(b: &[u8]) -> bool
    ensures { result ≡ plt_parses (plt_of b.now) }
{
    plt::parse(b).is_some()
}

fn tot_parses(b: &[u8]) -> bool
    ensures { result ≡ tot_parses (tot_of b.now).result }
{
    tot::parse(b).result.is_ok()
}

// The first n bytes of the table area i.
fn area_part(l: Limits, i: usize, n: u32) -> Part
    requires { AnArea l i }
    ensures { result ≡ area_part l i n }
{
    Part {
        start: i * l.table_area as usize,
        length: n as usize,
    }
}

// The MPT of the control place with the index i.
fn mpt_part_at(state: &[u8], i: usize) -> Option<Part>
    requires { MptReachable state.now i }
    ensures { result ≡ mpt_at (limits_of state.now) i (control_at state.now i) }
{
    let c = control::load_control(state, i);
    let l = head::load_limits(state);
    let number = l.sections as usize + i;
    c.mpt.then_some(area_part(l, number, c.mpt_length))
}

// A kept table is handed out where it parses.
fn handed_out(parses: bool, p: Part) -> Result<Option<Part>, Refusal>
    ensures { result ≡ (if parses then Ok (Some p) else Err NotASession) }
{
    if parses {
        return Ok(Some(p));
    }
    Err(Refusal::NotASession)
}

// The first of n assets of an MPT, from a place on, that a packet id carries.
fn carried_asset(b: &[u8], n: u8, from: usize, packet_id: u16) -> Option<Asset>
    ensures { result ≡ first_carried packet_id b.now (assets_from n b.now from).found }
{
    // By a cursor: where the next asset starts is known only once this one is read.
    let mut at = from;
    for i in 0..n {
        let (a, next) = mpt::asset_at(b, at)?;
        if a.packet_id(b) == Some(packet_id) {
            return Some(a);
        }
        at = next;
    }
    None
}

// The asset in the MPT of bytes b, which lie at m and came with the packet id `id`.
fn asset_in(b: &[u8], id: u32, m: Part, packet_id: u16) -> Result<Option<CarriedAsset>, Refusal>
    ensures { result ≡ asset_in packet_id id m b.now (mpt_of b.now).mpt (Ok None) }
{
    let Some(t) = mpt::parse(b).mpt else {
        return Err(Refusal::NotASession);
    };
    match carried_asset(b, t.assets, t.start, packet_id) {
        None => Ok(None),
        Some(asset) => Ok(Some(CarriedAsset {
            control_id: id,
            mpt: m,
            service_id: t.service_id(b),
            asset,
        })),
    }
}

// The least of n packet ids of control messages from a number on, which may be above all.
#[tactic(auto, using(crate::proofs::AssetReadings::above_all))]
fn next_id(state: &[u8], n: usize, from: u64) -> Option<u32>
    requires { control_places + n * control_size ≤ length state.now }
    ensures { result ≡ least_from None from most_name (names_from n control_size control_places state.now) }
{
    if 4294967295 < from {
        return None;
    }
    ids::least(
        state,
        CONTROL_PLACES,
        CONTROL_SIZE,
        n,
        from as u32,
        4294967295,
    )
}

#[tactic(auto, unfolding(crate::specs::Memory::Lending::session_asked, crate::specs::Answers::Readings::section_found, crate::specs::Answers::Readings::control_found, crate::specs::Answers::Readings::section_read, crate::specs::Answers::Readings::mpt_read, crate::specs::Answers::Readings::plt_read, crate::specs::Answers::Readings::tot_read, crate::specs::Answers::Readings::asset_read), using(crate::proofs::KeptParts::asked_reached))]
impl<'a> Session<'a> {
    #[tactic(auto, unfolding(crate::specs::Answers::Readings::section_found), using(crate::proofs::KeptParts::section_in_use, crate::proofs::KeptParts::section_area))]
    fn section_part(self, key: u32) -> Option<Part>
        requires { Reachable self.state.now }
        ensures { result ≡ section_part (lent_by self.entry) (section_found (lent_by self.entry) key) }
    {
        let u = head::load_used(self.state);
        let i = place::find(
            self.state,
            SECTION_PLACES,
            SECTION_SIZE,
            u.sections as usize,
            key,
        )?;
        let x = load_section(self.state, i);
        Some(area_part(head::load_limits(self.state), i, x.length))
    }

    #[tactic(auto, unfolding(crate::specs::Answers::Readings::control_found), using(crate::proofs::KeptParts::mpt_in_use))]
    fn mpt_part(self, id: u32) -> Option<Part>
        requires { Reachable self.state.now }
        ensures { result ≡ mpt_part (lent_by self.entry) (control_found (lent_by self.entry) id) }
    {
        let u = head::load_used(self.state);
        let i = place::find(
            self.state,
            CONTROL_PLACES,
            CONTROL_SIZE,
            u.control_ids as usize,
            id,
        )?;
        mpt_part_at(self.state, i)
    }

    fn plt_part(self) -> Option<Part>
        requires { Reachable self.state.now }
        ensures { result ≡ plt_part (lent_by self.entry) }
    {
        let x = head::load_latest(self.state);
        let l = head::load_limits(self.state);
        let i = (l.sections + l.control_ids) as usize;
        x.plt.then_some(area_part(l, i, x.plt_length))
    }

    fn tot_part(self) -> Option<Part>
        requires { Reachable self.state.now }
        ensures { result ≡ tot_part (lent_by self.entry) }
    {
        let x = head::load_latest(self.state);
        let l = head::load_limits(self.state);
        let i = (l.sections + l.control_ids + 1) as usize;
        x.tot.then_some(area_part(l, i, x.tot_length))
    }

    fn asset_by(self, id: u32, packet_id: u16) -> Result<Option<CarriedAsset>, Refusal>
        requires { Reachable self.state.now }
        ensures { result ≡ asset_if packet_id self.entry.tables.now id (mpt_part (lent_by self.entry) (control_found (lent_by self.entry) id)) (Ok None) }
    {
        match self.mpt_part(id) {
            None => Ok(None),
            Some(m) => asset_in(m.of(self.tables), id, m, packet_id),
        }
    }

    // The MPTs in ascending order of their packet ids, up to the one that names the packet id.
    fn asset_among(self, n: usize, packet_id: u16) -> Result<Option<CarriedAsset>, Refusal>
        requires { AllInUse self.state.now n }
        ensures { result ≡ asset_among (lent_by self.entry) packet_id (ascending_from n 0 (names_from n control_size control_places self.entry.state.now)) }
    {
        // By a cursor: the next id is looked for above the one that was found.
        let mut from = 0u64;
        for i in 0..n {
            let Some(id) = next_id(self.state, n, from) else {
                return Ok(None);
            };
            if let Some(a) = self.asset_by(id, packet_id)? {
                return Ok(Some(a));
            }
            from = id as u64 + 1;
        }
        Ok(None)
    }

    // The kept section of a key: table id, table id extension and section number.
    pub fn section(self, key: u32) -> Result<Option<Part>, Refusal>
        ensures { result ≡ section_read (lent_by self.entry) key }
    {
        self.is_session()?;
        match self.section_part(key) {
            None => Ok(None),
            Some(p) => {
                let id = (key / 16777216) as u8;
                handed_out(parses_as(id, p.of(self.tables)), p)
            }
        }
    }

    // The kept MPT of a control message's packet id.
    pub fn mpt(self, id: u32) -> Result<Option<Part>, Refusal>
        ensures { result ≡ mpt_read (lent_by self.entry) id }
    {
        self.is_session()?;
        match self.mpt_part(id) {
            None => Ok(None),
            Some(p) => handed_out(mpt_parses(p.of(self.tables)), p),
        }
    }

    // The kept PLT.
    pub fn plt(self) -> Result<Option<Part>, Refusal>
        ensures { result ≡ plt_read (lent_by self.entry) }
    {
        self.is_session()?;
        match self.plt_part() {
            None => Ok(None),
            Some(p) => handed_out(plt_parses(p.of(self.tables)), p),
        }
    }

    // The kept TOT.
    pub fn tot(self) -> Result<Option<Part>, Refusal>
        ensures { result ≡ tot_read (lent_by self.entry) }
    {
        self.is_session()?;
        match self.tot_part() {
            None => Ok(None),
            Some(p) => handed_out(tot_parses(p.of(self.tables)), p),
        }
    }

    // The asset that a packet id carries, by the kept MPTs.
    pub fn asset_of(self, packet_id: u16) -> Result<Option<CarriedAsset>, Refusal>
        ensures { result ≡ asset_read (lent_by self.entry) packet_id }
    {
        self.is_session()?;
        let u = head::load_used(self.state);
        self.asset_among(u.control_ids as usize, packet_id)
    }
}
