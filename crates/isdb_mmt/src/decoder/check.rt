// Question 5, before every call but the opening: do the lent bytes hold a session?
ghost use Rattle.std.specs.Prelude.{◌≡◌, ◌+◌, ◌*◌, ◌<◌, ◌≤◌, true, map, length};
ghost use Rattle.isdb_mmt.specs.Memory.Layout.{table_ids, most_media_ids, most_control_ids, most_sections, most_count, media_places, media_size, control_places, control_size, section_places, section_size, state_size};
ghost use Rattle.isdb_mmt.specs.Memory.Lent.{places_from, every};
ghost use Rattle.isdb_mmt.specs.Memory.Session.{limits_of, used_of, media_place_of, control_place_of, section_place_of};
ghost use Rattle.isdb_mmt.specs.Memory.Check.{at_most, count_fits_of, counts_from, length_fits, media_sound, control_sound, section_sound, used_sound, latest_sound, head_sound, places_sound, names_sound, sound_in, PlacesThere};

use crate::decoder::control::Control;
use crate::decoder::head::{Latest, Used};
use crate::decoder::limits::{Lengths, Limits};
use crate::decoder::{control, head, layout, limits, place};
use isdb_tlv::bytes;

fn length_fits(there: bool, n: u32, area: u64) -> bool
    ensures { result ≡ length_fits there n area }
{
    !there || u64::from(n) <= area
}

// The high halves of n counts that lie one behind the other from at on, or'ed.
fn high_halves(p: &[u8], at: usize, n: usize) -> u32
    requires { at + n * 8 ≤ length p.now }
    ensures { result < 2097152 → every count_fits_of (counts_from n at p.now) ≡ true }
{
    place::places(p, at, 8, n)
        .map(|q| place::word(q, 0))
        .fold(0, |halves, h| halves | h)
}

pub(crate) fn each_count_fits(p: &[u8], at: usize, n: usize, most: u64) -> bool
    requires { at + n * 8 ≤ length p.now }
    ensures { result ≡ every (at_most most) (counts_from n at p.now) }
{
    place::places(p, at, 8, n).all(|q| place::long(q, 0) <= most)
}

// No high half is above them all or'ed, so one test is enough for counts below 2^53: 2^21 times 2^32.
fn counts_fit(p: &[u8], at: usize, n: usize) -> bool
    requires { at + n * 8 ≤ length p.now }
    ensures { result ≡ every count_fits_of (counts_from n at p.now) }
{
    high_halves(p, at, n) < 2097152 || each_count_fits(p, at, n, layout::MOST_COUNT)
}

// No branch in the loop, and so many turns always, so that it runs on many counts at once.
fn all_bits(others: &[u64]) -> u64
    requires { length others.now ≡ table_ids }
    ensures { result ≤ most_count → every count_fits_of others.now ≡ true }
{
    others.iter().fold(0, |bits, x| bits | x)
}

pub(crate) fn each_fits(others: &[u64], most: u64) -> bool
    ensures { result ≡ every (at_most most) others.now }
{
    others.iter().all(|x| *x <= most)
}

fn others_fit(others: &[u64]) -> bool
    ensures { result ≡ every count_fits_of others.now }
{
    others.len() == 256 && all_bits(others) <= layout::MOST_COUNT
        || each_fits(others, layout::MOST_COUNT)
}

#[tactic(auto, unfolding(crate::specs::Memory::Check::used_sound))]
fn used_fit(l: Limits, u: Used) -> bool
    ensures { result ≡ used_sound l u }
{
    u64::from(u.media_ids) <= l.media_ids
        && u64::from(u.control_ids) <= l.control_ids
        && u64::from(u.sections) <= l.sections
}

#[tactic(auto, unfolding(crate::specs::Memory::Check::latest_sound))]
fn latest_fits(l: Limits, x: Latest) -> bool
    ensures { result ≡ latest_sound l x }
{
    length_fits(x.plt, x.plt_length, l.table_area) && length_fits(x.tot, x.tot_length, l.table_area)
}

#[tactic(auto, using(crate::proofs::Checks::media_fits, crate::proofs::Checks::media_fails))]
fn media_fits(l: Limits, p: &[u8]) -> bool
    requires { length p.now ≡ media_size }
    ensures { result ≡ media_sound l (media_place_of p.now) }
{
    let held = place::flag(p, layout::HELD);
    length_fits(held, bytes::get_u32(p, layout::OBJECT_LENGTH), l.mfu_area)
        && counts_fit(p, layout::STATS, 9)
}

#[tactic(auto, unfolding(crate::specs::Memory::Check::control_sound))]
fn control_fits(l: Limits, c: Control) -> bool
    ensures { result ≡ control_sound l c }
{
    length_fits(c.joining, c.length, l.message_area)
        && length_fits(c.mpt, c.mpt_length, l.table_area)
}

// By index: `all` over the places takes some nanoseconds more with few places, and this is asked at every push.
fn all_media_fit(s: &[u8], l: Limits, n: usize) -> bool
    requires { (n ≤ most_media_ids) × (state_size ≤ length s.now) }
    ensures { result ≡ every (media_sound l) (map media_place_of (places_from n media_size media_places s.now)) }
{
    for i in 0..n {
        let at = layout::MEDIA_PLACES + layout::MEDIA_SIZE * i;
        let end = at + layout::MEDIA_SIZE;
        if !media_fits(l, &s[at..end]) {
            return false;
        }
    }
    true
}

fn all_controls_fit(s: &[u8], l: Limits, n: usize) -> bool
    requires { (n ≤ most_control_ids) × (state_size ≤ length s.now) }
    ensures { result ≡ every (control_sound l) (map control_place_of (places_from n control_size control_places s.now)) }
{
    let mut places = place::places(s, layout::CONTROL_PLACES, layout::CONTROL_SIZE, n);
    places.all(|p| control_fits(l, control::control_of(p)))
}

// The longest decides, so that no turn of the loop has a branch.
fn all_sections_fit(s: &[u8], l: Limits, n: usize) -> bool
    requires { (n ≤ most_sections) × (state_size ≤ length s.now) }
    ensures { result ≡ every (section_sound l) (map section_place_of (places_from n section_size section_places s.now)) }
{
    let places = place::places(s, layout::SECTION_PLACES, layout::SECTION_SIZE, n);
    let longest = places.fold(0, |m, p| bytes::get_u32(p, 5).max(m));
    u64::from(longest) <= l.table_area
}

#[tactic(auto, using(crate::proofs::Checks::counters_is), unfolding(crate::specs::Memory::Check::head_sound))]
fn head_fits(h: &[u8], l: Limits, u: Used, others: &[u64], lent: Lengths) -> bool
    requires { (length h.now ≡ media_places) × ((l ≡ limits_of h.now) × (u ≡ used_of h.now)) }
    ensures { result ≡ head_sound h.now others.now lent }
{
    limits::ask(l, lent).is_ok()
        && used_fit(l, u)
        && latest_fits(l, head::latest_there(h))
        && counts_fit(h, layout::COUNTERS, 12)
        && others_fit(others)
}

#[tactic(auto, unfolding(crate::specs::Memory::Check::places_sound, crate::specs::Memory::Check::media_in, crate::specs::Memory::Check::controls_in, crate::specs::Memory::Check::sections_in))]
fn places_fit(s: &[u8], l: Limits, u: Used) -> bool
    requires { PlacesThere s.now × ((l ≡ limits_of s.now) × (u ≡ used_of s.now)) }
    ensures { result ≡ places_sound s.now }
{
    all_media_fit(s, l, u.media_ids as usize)
        && all_controls_fit(s, l, u.control_ids as usize)
        && all_sections_fit(s, l, u.sections as usize)
}

#[tactic(auto, unfolding(crate::specs::Memory::Check::names_sound))]
fn names_fit(s: &[u8], u: Used) -> bool
    requires { PlacesThere s.now × (u ≡ used_of s.now) }
    ensures { result ≡ names_sound s.now }
{
    place::names_apart(
        s,
        layout::MEDIA_PLACES,
        layout::MEDIA_SIZE,
        u.media_ids as usize,
    ) && place::names_apart(
        s,
        layout::CONTROL_PLACES,
        layout::CONTROL_SIZE,
        u.control_ids as usize,
    ) && place::names_apart(
        s,
        layout::SECTION_PLACES,
        layout::SECTION_SIZE,
        u.sections as usize,
    )
}

// Whether state and counts hold a session, with areas of so many bytes lent. The head is read from a part of known length.
#[tactic(auto, using(crate::proofs::Checks::too_short, crate::proofs::Checks::front_length, crate::proofs::Checks::head_fails, crate::proofs::Checks::places_fail, crate::proofs::Checks::names_decide))]
pub(crate) fn ready(s: &[u8], others: &[u64], lent: Lengths) -> bool
    requires { lent.state ≡ length s.now }
    ensures { result ≡ sound_in s.now others.now lent }
{
    if s.len() < layout::STATE_SIZE {
        return false;
    }
    let h = &s[..layout::MEDIA_PLACES];
    let l = head::limits_there(h);
    let u = head::used_there(h);
    if !head_fits(h, l, u, others, lent) {
        return false;
    }
    places_fit(s, l, u) && names_fit(s, u)
}
