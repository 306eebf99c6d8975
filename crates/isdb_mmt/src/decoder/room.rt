// Whether the counts are far enough from 2^53 for many packets.
ghost use Rattle.std.specs.Prelude.{◌≡◌, ◌≤◌, map, length};
ghost use Rattle.isdb_mmt.specs.Memory.Layout.{most_media_ids, media_places, media_size, state_size};
ghost use Rattle.isdb_mmt.specs.Memory.Lent.{places_from, every};
ghost use Rattle.isdb_mmt.specs.Memory.Session.{media_place_of};
ghost use Rattle.isdb_mmt.specs.Memory.Check.{roomy_count, stats_at_most, counts_at_most, PlacesThere};

use crate::decoder::{check, head, layout, place};

// 2^52.
const ROOMY_COUNT: u64 = 4503599627370496;

#[tactic(auto, using(crate::proofs::RoomTest::media_room))]
fn media_has_room(p: &[u8]) -> bool
    requires { length p.now ≡ media_size }
    ensures { result ≡ stats_at_most roomy_count (media_place_of p.now) }
{
    check::each_count_fits(p, layout::STATS, 9, ROOMY_COUNT)
}

fn all_media_have_room(s: &[u8], n: usize) -> bool
    requires { (n ≤ most_media_ids) × (state_size ≤ length s.now) }
    ensures { result ≡ every (stats_at_most roomy_count) (map media_place_of (places_from n media_size media_places s.now)) }
{
    place::places(s, layout::MEDIA_PLACES, layout::MEDIA_SIZE, n).all(|p| media_has_room(p))
}

#[tactic(auto, using(crate::proofs::RoomTest::counters_room), unfolding(crate::specs::Memory::Check::counts_at_most, crate::specs::Memory::Check::media_in))]
pub(crate) fn has_room(s: &[u8], others: &[u64]) -> bool
    requires { PlacesThere s.now }
    ensures { result ≡ counts_at_most roomy_count s.now others.now }
{
    check::each_count_fits(s, layout::COUNTERS, 12, ROOMY_COUNT)
        && all_media_have_room(s, head::load_used(s).media_ids as usize)
        && check::each_fits(others, ROOMY_COUNT)
}
