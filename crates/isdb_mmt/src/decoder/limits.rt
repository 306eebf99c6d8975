// The limits that an opening sets, the memory that they ask for, and questions 1 to 4.
ghost use Rattle.std.specs.Prelude.{◌≡◌, true};
ghost use Rattle.isdb_mmt.specs.Memory.Limits.{in_range, places_in_range, areas_in_range, packets_in_range, lengths_for, long_enough, needed_of, asked};
ghost use Rattle.isdb_mmt.specs.Memory.Refusals.{answer_number};

use crate::decoder::layout;
use crate::decoder::refusal::Refusal;

#[derive(Clone, Copy)]
pub struct Limits {
    // How many packet ids of media, packet ids of control messages and kept sections have a place.
    pub media_ids: u64,
    pub control_ids: u64,
    pub sections: u64,
    // Bytes for each held object, message being joined and kept table.
    pub mfu_area: u64,
    pub message_area: u64,
    pub table_area: u64,
    // How many packets are taken.
    pub packets: u64,
    // Whether scrambled payloads are passed on.
    pub pass_scrambled: bool,
}

// The lengths of what is lent: the session's state and its three areas.
#[derive(Clone, Copy)]
pub struct Lengths {
    pub state: u64,
    pub objects: u64,
    pub messages: u64,
    pub tables: u64,
}

#[tactic(auto, unfolding(crate::specs::Memory::Limits::in_range))]
fn in_range(most: u64, x: u64) -> bool
    ensures { result ≡ in_range most x }
{
    1 <= x && x <= most
}

#[tactic(auto, unfolding(crate::specs::Memory::Limits::places_in_range))]
fn places_in_range(l: Limits) -> bool
    ensures { result ≡ places_in_range l }
{
    in_range(layout::MOST_MEDIA_IDS, l.media_ids)
        && in_range(layout::MOST_CONTROL_IDS, l.control_ids)
        && in_range(layout::MOST_SECTIONS, l.sections)
}

#[tactic(auto, unfolding(crate::specs::Memory::Limits::areas_in_range))]
fn areas_in_range(l: Limits) -> bool
    ensures { result ≡ areas_in_range l }
{
    in_range(layout::MOST_MFU_AREA, l.mfu_area)
        && in_range(layout::MOST_MESSAGE_AREA, l.message_area)
        && in_range(layout::MOST_TABLE_AREA, l.table_area)
}

#[tactic(auto, unfolding(crate::specs::Memory::Limits::packets_in_range))]
fn packets_in_range(l: Limits) -> bool
    ensures { result ≡ packets_in_range l }
{
    in_range(layout::MOST_PACKETS, l.packets)
}

#[tactic(auto, using(crate::proofs::Limits::in_ranges), unfolding(crate::specs::Memory::Limits::lengths_for))]
fn lengths_for(l: Limits) -> Lengths
    requires { (places_in_range l ≡ true) × (areas_in_range l ≡ true) }
    ensures { result ≡ lengths_for l }
{
    Lengths {
        state: layout::STATE_SIZE as u64,
        objects: l.media_ids * l.mfu_area,
        messages: l.control_ids * l.message_area,
        tables: (l.sections + l.control_ids + 2) * l.table_area,
    }
}

#[tactic(auto, unfolding(crate::specs::Memory::Limits::long_enough))]
fn long_enough(need: Lengths, lent: Lengths) -> bool
    ensures { result ≡ long_enough need lent }
{
    need.state <= lent.state
        && need.objects <= lent.objects
        && need.messages <= lent.messages
        && need.tables <= lent.tables
}

// How long each lent buffer has to be. Limits out of range are refused as an opening would refuse them where the buffers are long
// enough; of shorter ones an opening says so before it asks for packets.
#[tactic(auto, unfolding(crate::specs::Memory::Limits::needed_of))]
pub fn needed(l: Limits) -> Result<Lengths, Refusal>
    ensures { result ≡ needed_of l }
{
    if !places_in_range(l) {
        return Err(Refusal::PlacesOutOfRange);
    }
    if !areas_in_range(l) {
        return Err(Refusal::AreasOutOfRange);
    }
    if !packets_in_range(l) {
        return Err(Refusal::PacketsOutOfRange);
    }
    Ok(lengths_for(l))
}

// Questions 1 to 4.
#[tactic(auto, unfolding(crate::specs::Memory::Limits::asked))]
pub fn ask(l: Limits, lent: Lengths) -> Result<(), Refusal>
    ensures { answer_number result ≡ asked l lent }
{
    if !places_in_range(l) {
        return Err(Refusal::PlacesOutOfRange);
    }
    if !areas_in_range(l) {
        return Err(Refusal::AreasOutOfRange);
    }
    if !long_enough(lengths_for(l), lent) {
        return Err(Refusal::BufferTooShort);
    }
    if !packets_in_range(l) {
        return Err(Refusal::PacketsOutOfRange);
    }
    Ok(())
}
