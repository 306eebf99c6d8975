// Readings of a session. Each asks question 5 first, changes nothing, and answers why it is turned down, that there is nothing,
// or the value. Here: what readings hand out, and those of counts and of the time.
ghost use Rattle.std.specs.Prelude.{◌≡◌};
ghost use Rattle.isdb_mmt.specs.Memory.Lending.{lent_by};
ghost use Rattle.isdb_mmt.specs.Answers.Readings.{counters_read, time_read, count_read};

use crate::decoder::counts::{AssetStats, Counters};
use crate::decoder::refusal::Refusal;
use crate::decoder::session::Session;
use crate::decoder::{counts, head};
use crate::mpu::MfuHeader;
use crate::part::Part;
use crate::table::mpt::Asset;

// The first and the last MPU number of a media packet id.
#[derive(Clone, Copy)]
pub struct MpuRange {
    pub first: u32,
    pub last: u32,
}

// What is known of a media packet id. Held is the length of the held object.
#[derive(Clone, Copy)]
pub struct MediaState {
    pub stats: AssetStats,
    pub sequence: Option<u32>,
    pub mpu_range: Option<MpuRange>,
    pub held: Option<u32>,
}

// A held object: the fields of its first unit, and where its bytes so far lie in the lent objects.
#[derive(Clone, Copy)]
pub struct HeldObject {
    pub mpu_sequence_number: u32,
    pub rap: bool,
    pub mfu: Option<MfuHeader>,
    pub item_id: Option<u32>,
    pub bytes: Part,
}

// What a media packet id holds: it may have no place, or a place and no object.
#[derive(Clone, Copy)]
pub enum Held {
    NoId,
    NoObject,
    Object(HeldObject),
}

// What is known of a control message's packet id. Joined is the length of the message being joined.
#[derive(Clone, Copy)]
pub struct ControlState {
    pub sequence: Option<u32>,
    pub joined: Option<u32>,
}

// The asset that a packet id carries: the MPT that names it, by the packet id of its messages and its bytes in the lent tables, the
// service of the MPT, and the asset, whose parts count in the MPT's bytes.
#[derive(Clone, Copy)]
pub struct CarriedAsset {
    pub control_id: u32,
    pub mpt: Part,
    pub service_id: Option<u16>,
    pub asset: Asset,
}

#[tactic(auto, unfolding(crate::specs::Memory::Lending::session_asked, crate::specs::Answers::Readings::counters_read, crate::specs::Answers::Readings::time_read, crate::specs::Answers::Readings::count_read))]
impl<'a> Session<'a> {
    // The counts of packets, tables and messages.
    pub fn counters(self) -> Result<Counters, Refusal>
        ensures { result ≡ counters_read (lent_by self.entry) }
    {
        self.is_session()?;
        Ok(counts::counters_of(self.state))
    }

    // The last NTP timestamp.
    pub fn time(self) -> Result<Option<u64>, Refusal>
        ensures { result ≡ time_read (lent_by self.entry) }
    {
        self.is_session()?;
        let t = head::load_time(self.state);
        Ok(t.seen.then_some(t.timestamp))
    }

    // How many tables of an id came that are not decoded.
    pub fn table_count(self, id: u8) -> Result<u64, Refusal>
        ensures { result ≡ count_read (lent_by self.entry) id }
    {
        self.is_session()?;
        Ok(self.others[id as usize])
    }
}
