// A media packet's units and its place: what the packet needs is found by a walk that writes nothing.
ghost use Rattle.std.specs.Prelude.{◌≡◌, ◌+◌, ◌<◌, length};
ghost use Rattle.isdb_mmt.specs.Formats.Mpu.{units_of};
ghost use Rattle.isdb_mmt.specs.Memory.Layout.{most_count};
ghost use Rattle.isdb_mmt.specs.Pushes.MediaPush.{no_object};
ghost use Rattle.isdb_mmt.specs.Pushes.MediaEffect.{unit_object, object_or, with_length, complete_unit, head_unit, dropped_unit, grown_to, grown_unit, with_unit, units_effect, Ready, Light};
ghost use Rattle.isdb_mmt.specs.Pushes.MediaPlace.{gap_after, gap_in, lost_in, header_if, item_if, normal_object, begun, start_of, new_in, jump_in, seen_mpu, last_mpu, first_mpu_of, completes_in, adds_of, summed, place_after_of, StatsWithin};
ghost use Rattle.isdb_mmt.specs.Pushes.MediaOutcome.{outcome_with, units_outcome, media_outcome, CanReadUnits};

use crate::decoder::counts::AssetStats;
use crate::decoder::media::{Media, Object};
use crate::mpu;
use crate::mpu::{FragmentType, FragmentationIndicator, MfuHeader, PayloadHeader, Unit};
use crate::part::Part;
use crate::walk_step::WalkStep;

// What the units do: the object held after them, how many are dropped, the records and data given out, the longest object held
// on the way, and the data of the last unit.
#[derive(Clone, Copy)]
pub(crate) struct MediaEffect {
    pub object: Option<Object>,
    pub drops: u64,
    pub records: u64,
    pub bytes: u64,
    pub longest: u64,
    pub last: Part,
}

pub(crate) fn no_object() -> Object
    ensures { result ≡ no_object }
{
    Object {
        mpu_sequence_number: 0,
        rap: false,
        timed: false,
        header: mpu::NO_HEADER,
        item: false,
        item_id: 0,
        length: 0,
    }
}

// What is known of the object that a unit begins.
#[tactic(auto, unfolding(crate::specs::Pushes::MediaEffect::unit_object))]
pub(crate) fn unit_object(mpu: u32, rap: bool, u: Unit, n: u32) -> Object
    ensures { result ≡ unit_object mpu rap u n }
{
    Object {
        mpu_sequence_number: mpu,
        rap,
        timed: u.mfu.is_some(),
        header: u.mfu.unwrap_or(mpu::NO_HEADER),
        item: u.item_id.is_some(),
        item_id: u.item_id.unwrap_or(0),
        length: n,
    }
}

// The object that is held, the empty one where none is.
pub(crate) fn object_or(o: Option<Object>) -> Object
    ensures { result ≡ object_or o }
{
    o.unwrap_or(no_object())
}

pub(crate) fn with_length(n: u32, o: Object) -> Object
    ensures { result ≡ with_length n o }
{
    Object { length: n, ..o }
}

#[tactic(auto, unfolding(crate::specs::Pushes::MediaEffect::complete_unit))]
fn complete_unit(t: MediaEffect, p: Part, n: u64) -> MediaEffect
    requires { (t.drops < 4294967296) × ((t.records < 4294967296) × ((t.bytes < 1099511627776) × (n < 4294967296))) }
    ensures { result ≡ complete_unit t p n }
{
    MediaEffect {
        object: None,
        drops: t.drops + u64::from(t.object.is_some()),
        records: t.records + 1,
        bytes: t.bytes + n,
        last: p,
        ..t
    }
}

#[tactic(auto, unfolding(crate::specs::Pushes::MediaEffect::head_unit))]
fn head_unit(t: MediaEffect, o: Object, p: Part, n: u64) -> MediaEffect
    requires { t.drops < 4294967296 }
    ensures { result ≡ head_unit t o p n }
{
    MediaEffect {
        object: Some(o),
        drops: t.drops + u64::from(t.object.is_some()),
        longest: t.longest.max(n),
        last: p,
        ..t
    }
}

#[tactic(auto, unfolding(crate::specs::Pushes::MediaEffect::dropped_unit))]
fn dropped_unit(t: MediaEffect, p: Part) -> MediaEffect
    requires { t.drops < 4294967296 }
    ensures { result ≡ dropped_unit t p }
{
    MediaEffect {
        object: None,
        drops: t.drops + 1,
        last: p,
        ..t
    }
}

#[tactic(auto, unfolding(crate::specs::Pushes::MediaEffect::grown_to))]
fn grown_to(ends: bool, o: Object, t: MediaEffect, p: Part, n: u64) -> MediaEffect
    requires { (t.records < 4294967296) × ((t.bytes < 1099511627776) × (n < 4294967296)) }
    ensures { result ≡ grown_to ends o t p n }
{
    if ends {
        return MediaEffect {
            object: None,
            records: t.records + 1,
            bytes: t.bytes + n,
            longest: t.longest.max(n),
            last: p,
            ..t
        };
    }
    MediaEffect {
        object: Some(with_length(n as u32, o)),
        longest: t.longest.max(n),
        last: p,
        ..t
    }
}

// An object has at most 16,777,216 bytes.
const MOST_OBJECT: u64 = 16777216;

#[tactic(auto, unfolding(crate::specs::Pushes::MediaEffect::grown_unit))]
fn grown_unit(ends: bool, t: MediaEffect, p: Part, n: u64) -> MediaEffect
    requires { (t.drops < 4294967296) × ((t.records < 4294967296) × ((t.bytes < 1099511627776) × (n < 4294967296))) }
    ensures { result ≡ grown_unit ends t p n }
{
    let Some(o) = t.object else {
        return t;
    };
    let whole = o.length as u64 + n;
    if whole <= MOST_OBJECT {
        return grown_to(ends, o, t, p, whole);
    }
    dropped_unit(t, p)
}

#[tactic(auto, unfolding(crate::specs::Pushes::MediaEffect::with_unit))]
fn step(
    f: FragmentationIndicator,
    mpu: u32,
    rap: bool,
    t: MediaEffect,
    u: Unit,
    n: u64,
) -> MediaEffect
    requires { Light t n }
    ensures { result ≡ with_unit f mpu rap t u n }
{
    let p = u.data;
    match f {
        FragmentationIndicator::Complete => complete_unit(t, p, n),
        FragmentationIndicator::Head => head_unit(t, unit_object(mpu, rap, u, n as u32), p, n),
        FragmentationIndicator::Middle => grown_unit(false, t, p, n),
        FragmentationIndicator::Last => grown_unit(true, t, p, n),
    }
}

#[tactic(auto, using(crate::proofs::MediaEffects::going_first, crate::proofs::MediaEffects::going_end, crate::proofs::MediaEffects::going_bad, crate::proofs::MediaEffects::going_less))]
pub(crate) fn units_effect(
    q: &[u8],
    timed: bool,
    aggregated: bool,
    f: FragmentationIndicator,
    mpu: u32,
    rap: bool,
    start: MediaEffect,
) -> Option<MediaEffect>
    requires { Ready q.now start }
    ensures { result ≡ units_effect f mpu rap q.now start (units_of q.now timed aggregated) }
{
    // By a cursor: a step has three cases, and two of them end the loop differently.
    let mut at: usize = 8;
    let mut t = start;
    loop {
        match mpu::next_unit(q, timed, aggregated, at) {
            WalkStep::End => return Some(t),
            WalkStep::Malformed => return None,
            WalkStep::Entry(u, next) => {
                let n = u.data.of(q).len();
                t = step(f, mpu, rap, t, u, n as u64);
                at = next;
            }
        }
    }
}

// The gap rule: a number that does not follow the last one, where there was one.
pub(crate) fn is_gap(seen: bool, last: u32, n: u32) -> bool
    ensures { result ≡ gap_after seen last n }
{
    seen && !mpu::follows_on(last, n)
}

#[tactic(auto, unfolding(crate::specs::Pushes::MediaPlace::gap_in))]
fn gap_in(p: Media, n: u32) -> bool
    ensures { result ≡ gap_in p n }
{
    is_gap(p.seen, p.sequence, n)
}

#[tactic(auto, unfolding(crate::specs::Pushes::MediaPlace::lost_in))]
fn lost_in(p: Media, n: u32) -> u32
    ensures { result ≡ lost_in p n }
{
    if gap_in(p, n) {
        return mpu::lost(p.sequence, n);
    }
    0
}

fn header_if(there: bool, h: MfuHeader) -> MfuHeader
    ensures { result ≡ header_if there h }
{
    if there { h } else { mpu::NO_HEADER }
}

fn item_if(there: bool, x: u32) -> u32
    ensures { result ≡ item_if there x }
{
    if there { x } else { 0 }
}

#[tactic(auto, unfolding(crate::specs::Pushes::MediaPlace::normal_object))]
fn normal_object(o: Object) -> Object
    ensures { result ≡ normal_object o }
{
    Object {
        header: header_if(o.timed, o.header),
        item_id: item_if(o.item, o.item_id),
        ..o
    }
}

fn begin(object: Option<Object>, drops: u64) -> MediaEffect
    ensures { result ≡ begun object drops }
{
    MediaEffect {
        object,
        drops,
        records: 0,
        bytes: 0,
        longest: 0,
        last: Part {
            start: 0,
            length: 0,
        },
    }
}

// Before the units: a gap drops the held object.
#[tactic(auto, unfolding(crate::specs::Pushes::MediaPlace::start_of))]
pub(crate) fn start_of(p: Media, n: u32) -> MediaEffect
    ensures { result ≡ start_of p n }
{
    if !p.held {
        return begin(None, 0);
    }
    if gap_in(p, n) {
        return begin(None, 1);
    }
    begin(Some(normal_object(p.object)), 0)
}

#[tactic(auto, unfolding(crate::specs::Pushes::MediaPlace::new_in))]
fn new_in(p: Media, h: Option<PayloadHeader>) -> bool
    ensures { result ≡ new_in p h }
{
    h.is_some_and(|x| !p.mpu_seen || x.mpu_sequence_number != p.mpu)
}

#[tactic(auto, unfolding(crate::specs::Pushes::MediaPlace::jump_in))]
fn jump_in(p: Media, h: Option<PayloadHeader>) -> bool
    ensures { result ≡ jump_in p h }
{
    let Some(x) = h else {
        return false;
    };
    p.mpu_seen && x.mpu_sequence_number != p.mpu && !mpu::follows_on(p.mpu, x.mpu_sequence_number)
}

fn seen_mpu(p: Media, h: Option<PayloadHeader>) -> bool
    ensures { result ≡ seen_mpu p h }
{
    p.mpu_seen || h.is_some()
}

fn last_mpu(p: Media, h: Option<PayloadHeader>) -> u32
    ensures { result ≡ last_mpu p h }
{
    match h {
        None => item_if(p.mpu_seen, p.mpu),
        Some(x) => x.mpu_sequence_number,
    }
}

#[tactic(auto, unfolding(crate::specs::Pushes::MediaPlace::first_mpu_of))]
fn first_mpu(p: Media, h: Option<PayloadHeader>) -> u32
    ensures { result ≡ first_mpu_of p h }
{
    if p.mpu_seen {
        return p.first_mpu;
    }
    h.map_or(0, |x| x.mpu_sequence_number)
}

fn completes_in(h: Option<PayloadHeader>) -> bool
    ensures { result ≡ completes_in h }
{
    h.is_some_and(|x| x.fragmentation.completes())
}

// What a packet would do: whether its payload is malformed, whether its units are taken, the payload's header, the effect of the
// units.
#[derive(Clone, Copy)]
pub(crate) struct MediaOutcome {
    pub bad: bool,
    pub taken: bool,
    pub header: Option<PayloadHeader>,
    pub units: MediaEffect,
}

fn outcome_with(
    bad: bool,
    taken: bool,
    header: Option<PayloadHeader>,
    units: MediaEffect,
) -> MediaOutcome
    ensures { result ≡ outcome_with bad taken header units }
{
    MediaOutcome {
        bad,
        taken,
        header,
        units,
    }
}

#[tactic(auto, using(crate::proofs::MediaOutcomes::outcome_malformed, crate::proofs::MediaOutcomes::outcome_metadata, crate::proofs::MediaOutcomes::outcome_movie, crate::proofs::MediaOutcomes::outcome_reserved, crate::proofs::MediaOutcomes::ready_declared))]
fn units_outcome(t: MediaEffect, h: PayloadHeader, rap: bool, b: &[u8]) -> MediaOutcome
    requires { Ready b.now t }
    ensures { result ≡ units_outcome t h rap b.now h.fragment_type }
{
    let FragmentType::Mfu = h.fragment_type else {
        return outcome_with(false, false, Some(h), t);
    };
    match units_effect(
        mpu::declared(b),
        h.timed,
        h.aggregated,
        h.fragmentation,
        h.mpu_sequence_number,
        rap,
        t,
    ) {
        None => outcome_with(true, false, Some(h), t),
        Some(r) => outcome_with(false, true, Some(h), r),
    }
}

#[tactic(auto, using(crate::proofs::MediaOutcomes::outcome_none, crate::proofs::MediaOutcomes::outcome_clear))]
pub(crate) fn media_outcome(p: Media, n: u32, scrambled: bool, rap: bool, b: &[u8]) -> MediaOutcome
    requires { CanReadUnits p b.now }
    ensures { result ≡ media_outcome p n scrambled rap b.now }
{
    let t = start_of(p, n);
    let Some(h) = mpu::parse_header(b) else {
        return outcome_with(true, false, None, t);
    };
    if scrambled {
        return outcome_with(false, false, Some(h), t);
    }
    units_outcome(t, h, rap, b)
}

// What a packet adds to the counts.
#[tactic(auto, using(crate::proofs::MediaOutcomes::adds_made))]
fn adds_of(
    p: Media,
    n: u32,
    scrambled: bool,
    h: Option<PayloadHeader>,
    bad: bool,
    t: MediaEffect,
) -> AssetStats
    ensures { result ≡ adds_of p n scrambled h bad t }
{
    AssetStats {
        packets: 1,
        packets_lost: lost_in(p, n) as u64,
        scrambled_packets: u64::from(scrambled),
        mfus: t.records,
        scrambled_mfus: u64::from(scrambled && completes_in(h)),
        mfus_dropped: t.drops,
        mpus: u64::from(new_in(p, h)),
        mpu_sequence_jumps: u64::from(jump_in(p, h)),
        malformed: u64::from(bad),
    }
}

#[tactic(auto, unfolding(crate::specs::Pushes::MediaPlace::summed))]
fn add_stats(s: AssetStats, d: AssetStats) -> AssetStats
    requires { StatsWithin most_count s × StatsWithin 4294967295 d }
    ensures { result ≡ summed s d }
{
    AssetStats {
        packets: s.packets + d.packets,
        packets_lost: s.packets_lost + d.packets_lost,
        scrambled_packets: s.scrambled_packets + d.scrambled_packets,
        mfus: s.mfus + d.mfus,
        scrambled_mfus: s.scrambled_mfus + d.scrambled_mfus,
        mfus_dropped: s.mfus_dropped + d.mfus_dropped,
        mpus: s.mpus + d.mpus,
        mpu_sequence_jumps: s.mpu_sequence_jumps + d.mpu_sequence_jumps,
        malformed: s.malformed + d.malformed,
    }
}

// The place after a packet.
#[tactic(auto, unfolding(crate::specs::Pushes::MediaPlace::place_after_of, crate::specs::Pushes::MediaPlace::stats_after))]
pub(crate) fn place_after(
    id: u32,
    p: Media,
    n: u32,
    scrambled: bool,
    h: Option<PayloadHeader>,
    bad: bool,
    t: MediaEffect,
) -> Media
    requires { StatsWithin most_count p.stats × ((t.records < 4294967296) × (t.drops < 4294967296)) }
    ensures { result ≡ place_after_of id p n scrambled h bad t }
{
    Media {
        packet_id: id,
        seen: true,
        sequence: n,
        mpu_seen: seen_mpu(p, h),
        mpu: last_mpu(p, h),
        first_mpu: first_mpu(p, h),
        held: t.object.is_some(),
        object: object_or(t.object),
        stats: add_stats(p.stats, adds_of(p, n, scrambled, h, bad, t)),
    }
}
