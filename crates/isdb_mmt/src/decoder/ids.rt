// Packet ids and keys of a session in ascending order, and what is known of a packet id.
ghost use Rattle.std.specs.Prelude.{◌≡◌, ℕ, ◌+◌, ◌*◌, ◌<◌, ◌≤◌, length, Some, None};
ghost use Rattle.isdb_mmt.specs.Memory.Lent.{names_from, found_from};
ghost use Rattle.isdb_mmt.specs.Memory.Layout.{most_media_ids, most_control_ids, most_mfu_area, media_places, media_size, control_places, control_size};
ghost use Rattle.isdb_mmt.specs.Memory.Session.{used_of};
ghost use Rattle.isdb_mmt.specs.Memory.Check.{PlacesThere};
ghost use Rattle.isdb_mmt.specs.Memory.Lending.{lent_by};
ghost use Rattle.isdb_mmt.specs.Answers.Readings.{least_from, next_media_read, next_control_read, next_key_read, media_state_of, media_read, held_object_of, held_at, held_read, control_state_of, control_read};

use crate::decoder::control::Control;
use crate::decoder::limits::Limits;
use crate::decoder::media::Media;
use crate::decoder::readings::{ControlState, Held, HeldObject, MediaState, MpuRange};
use crate::decoder::refusal::Refusal;
use crate::decoder::session::Session;
use crate::decoder::{control, head, layout, media, place};
use crate::part::Part;

// The least name from first to last, of n places from at on.
pub(crate) fn least(
    s: &[u8],
    at: usize,
    size: usize,
    n: usize,
    first: u32,
    last: u32,
) -> Option<u32>
    requires { (4 ≤ size) × (at + n * size ≤ length s.now) }
    ensures { result ≡ least_from None first last (names_from n size at s.now) }
{
    place::places(s, at, size, n)
        .map(|p| place::word(p, 0))
        .filter(|y| first <= *y && *y <= last)
        .min()
}

// Which place a packet id has.
fn find_media(state: &[u8], id: u32) -> Option<usize>
    requires { PlacesThere state.now }
    ensures found { result ≡ found_from 0 (names_from (used_of state.now).media_ids media_size media_places state.now) id }
    ensures in_use { (i : ℕ) → result ≡ Some i → i < most_media_ids }
{
    let u = head::load_used(state);
    place::find(
        state,
        layout::MEDIA_PLACES,
        layout::MEDIA_SIZE,
        u.media_ids as usize,
        id,
    )
}

pub(crate) fn find_control(state: &[u8], id: u32) -> Option<usize>
    requires { PlacesThere state.now }
    ensures found { result ≡ found_from 0 (names_from (used_of state.now).control_ids control_size control_places state.now) id }
    ensures in_use { (i : ℕ) → result ≡ Some i → i < most_control_ids }
{
    let u = head::load_used(state);
    place::find(
        state,
        layout::CONTROL_PLACES,
        layout::CONTROL_SIZE,
        u.control_ids as usize,
        id,
    )
}

fn media_state(m: Media) -> MediaState
    ensures { result ≡ media_state_of m }
{
    MediaState {
        stats: m.stats,
        sequence: m.seen.then_some(m.sequence),
        mpu_range: m.mpu_seen.then_some(MpuRange {
            first: m.first_mpu,
            last: m.mpu,
        }),
        held: m.held.then_some(m.object.length),
    }
}

// The object of media place i lies in area i of the lent objects.
fn held_object(l: Limits, i: usize, m: Media) -> HeldObject
    requires { (i < most_media_ids) × (l.mfu_area ≤ most_mfu_area) }
    ensures { result ≡ held_object_of l i m }
{
    let o = m.object;
    HeldObject {
        mpu_sequence_number: o.mpu_sequence_number,
        rap: o.rap,
        mfu: o.timed.then_some(o.header),
        item_id: o.item.then_some(o.item_id),
        bytes: Part {
            start: i * l.mfu_area as usize,
            length: o.length as usize,
        },
    }
}

fn held_at(l: Limits, i: usize, m: Media) -> Held
    requires { (i < most_media_ids) × (l.mfu_area ≤ most_mfu_area) }
    ensures { result ≡ held_at l i m }
{
    if m.held {
        return Held::Object(held_object(l, i, m));
    }
    Held::NoObject
}

fn control_state(c: Control) -> ControlState
    ensures { result ≡ control_state_of c }
{
    ControlState {
        sequence: c.seen.then_some(c.sequence),
        joined: c.joining.then_some(c.length),
    }
}

#[tactic(auto, unfolding(crate::specs::Memory::Lending::session_asked, crate::specs::Answers::Readings::media_found, crate::specs::Answers::Readings::control_found, crate::specs::Answers::Readings::next_media_read, crate::specs::Answers::Readings::next_control_read, crate::specs::Answers::Readings::next_key_read, crate::specs::Answers::Readings::media_read, crate::specs::Answers::Readings::held_read, crate::specs::Answers::Readings::control_read), using(crate::proofs::ReadSteps::asked_there, crate::proofs::ReadSteps::asked_area, crate::proofs::Checks::media_within, crate::proofs::Checks::controls_within, crate::proofs::Checks::sections_within))]
impl<'a> Session<'a> {
    // The least media packet id from a number on.
    pub fn next_media(self, from: u32) -> Result<Option<u32>, Refusal>
        ensures { result ≡ next_media_read (lent_by self.entry) from }
    {
        self.is_session()?;
        let u = head::load_used(self.state);
        Ok(least(
            self.state,
            layout::MEDIA_PLACES,
            layout::MEDIA_SIZE,
            u.media_ids as usize,
            from,
            4294967295,
        ))
    }

    // The least packet id of control messages from a number on.
    pub fn next_control(self, from: u32) -> Result<Option<u32>, Refusal>
        ensures { result ≡ next_control_read (lent_by self.entry) from }
    {
        self.is_session()?;
        let u = head::load_used(self.state);
        Ok(least(
            self.state,
            layout::CONTROL_PLACES,
            layout::CONTROL_SIZE,
            u.control_ids as usize,
            from,
            4294967295,
        ))
    }

    // The least key of a kept table from first to last: table id, table id extension and section number.
    pub fn next_key(self, first: u32, last: u32) -> Result<Option<u32>, Refusal>
        ensures { result ≡ next_key_read (lent_by self.entry) first last }
    {
        self.is_session()?;
        let u = head::load_used(self.state);
        Ok(least(
            self.state,
            layout::SECTION_PLACES,
            layout::SECTION_SIZE,
            u.sections as usize,
            first,
            last,
        ))
    }

    // What is known of a media packet id.
    pub fn media(self, id: u32) -> Result<Option<MediaState>, Refusal>
        ensures { result ≡ media_read (lent_by self.entry) id }
    {
        self.is_session()?;
        match find_media(self.state, id) {
            Some(i) => Ok(Some(media_state(media::load_media(self.state, i)))),
            None => Ok(None),
        }
    }

    // The object that a media packet id holds.
    pub fn held(self, id: u32) -> Result<Held, Refusal>
        ensures { result ≡ held_read (lent_by self.entry) id }
    {
        self.is_session()?;
        match find_media(self.state, id) {
            Some(i) => Ok(held_at(
                head::load_limits(self.state),
                i,
                media::load_media(self.state, i),
            )),
            None => Ok(Held::NoId),
        }
    }

    // What is known of a packet id of control messages.
    pub fn control(self, id: u32) -> Result<Option<ControlState>, Refusal>
        ensures { result ≡ control_read (lent_by self.entry) id }
    {
        self.is_session()?;
        match find_control(self.state, id) {
            Some(i) => Ok(Some(control_state(control::load_control(self.state, i)))),
            None => Ok(None),
        }
    }
}
