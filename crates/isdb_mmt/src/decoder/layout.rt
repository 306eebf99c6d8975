// The numbers of a session, each once: the most that limits and counts may be, and where the parts of the state lie.

// Limits: places, the bytes of an area, packets.
pub(crate) const MOST_MEDIA_IDS: u64 = 64;

pub(crate) const MOST_CONTROL_IDS: u64 = 32;

pub(crate) const MOST_SECTIONS: u64 = 512;

pub(crate) const MOST_MFU_AREA: u64 = 16777216;

pub(crate) const MOST_MESSAGE_AREA: u64 = 1048576;

pub(crate) const MOST_TABLE_AREA: u64 = 65539;

pub(crate) const MOST_PACKETS: u64 = 4294967295;

// A count: 2^53.
pub(crate) const MOST_COUNT: u64 = 9007199254740992;

// The head: limits from 0, places in use, PLT and TOT, the time, counters.
pub(crate) const USED: usize = 57;

pub(crate) const LATEST: usize = USED + 12;

pub(crate) const TIME: usize = LATEST + 10;

pub(crate) const COUNTERS: usize = TIME + 9;

// Then places of each sort.
pub(crate) const MEDIA_PLACES: usize = COUNTERS + 96;

pub(crate) const CONTROL_PLACES: usize = MEDIA_PLACES + MOST_MEDIA_IDS as usize * MEDIA_SIZE;

pub(crate) const SECTION_PLACES: usize = CONTROL_PLACES + MOST_CONTROL_IDS as usize * CONTROL_SIZE;

pub(crate) const STATE_SIZE: usize = SECTION_PLACES + MOST_SECTIONS as usize * SECTION_SIZE;

// A media place: numbers from 0, whether an object is held, the object, counts.
pub(crate) const HELD: usize = 18;

pub(crate) const OBJECT: usize = HELD + 1;

pub(crate) const OBJECT_LENGTH: usize = OBJECT + 25;

pub(crate) const STATS: usize = OBJECT + 29;

pub(crate) const MEDIA_SIZE: usize = STATS + 72;

pub(crate) const CONTROL_SIZE: usize = 21;

pub(crate) const SECTION_SIZE: usize = 9;
