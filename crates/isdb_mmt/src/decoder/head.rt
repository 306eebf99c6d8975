// The head of a session's state: its limits, how many places are in use, the lengths of the PLT and the TOT, the time, the
// counters.
ghost use Rattle.std.specs.Prelude.{◌≡◌, ◌≤◌, length};
ghost use Rattle.isdb_tlv.specs.Fields.{written};
ghost use Rattle.isdb_mmt.specs.Memory.Lent.{over};
ghost use Rattle.isdb_mmt.specs.Memory.Layout.{used_place, latest_place, time_place, counters_place, media_places, state_size};
ghost use Rattle.isdb_mmt.specs.Memory.Session.{limits_of, limits_fields, used_of, used_fields, latest_of, latest_fields, time_of, time_fields, counters_fields};

use crate::decoder::counts;
use crate::decoder::counts::Counters;
use crate::decoder::layout::{LATEST, TIME, USED};
use crate::decoder::limits::Limits;
use crate::decoder::place::{flag, long, word};
use isdb_tlv::bytes;

// How many places of each sort are in use. They are taken in order.
#[derive(Clone, Copy)]
pub(crate) struct Used {
    pub media_ids: u32,
    pub control_ids: u32,
    pub sections: u32,
}

// Whether a PLT and a TOT are kept, and their lengths.
// Flags beside their numbers and no Option: so they stand in the lent state.
#[derive(Clone, Copy)]
pub(crate) struct Latest {
    pub plt: bool,
    pub plt_length: u32,
    pub tot: bool,
    pub tot_length: u32,
}

// The last NTP timestamp, where there was one.
// A flag beside its number and no Option: so it stands in the lent state.
#[derive(Clone, Copy)]
pub(crate) struct Time {
    pub seen: bool,
    pub timestamp: u64,
}

// Laid into each caller, so that it reads only those that it uses.
#[tactic(auto, unfolding(crate::specs::Memory::Session::limits_of))]
#[inline(always)]
pub(crate) fn load_limits(s: &[u8]) -> Limits
    ensures { result ≡ limits_of s.now }
{
    Limits {
        media_ids: bytes::get_u64(s, 0),
        control_ids: bytes::get_u64(s, 8),
        sections: bytes::get_u64(s, 16),
        mfu_area: bytes::get_u64(s, 24),
        message_area: bytes::get_u64(s, 32),
        table_area: bytes::get_u64(s, 40),
        packets: bytes::get_u64(s, 48),
        pass_scrambled: flag(s, 56),
    }
}

// The same of a head that is there, read without a test of each place: question 5 is asked at every call, and with `load_limits` it takes
// some nanoseconds more.
#[tactic(auto, unfolding(crate::specs::Memory::Session::limits_of))]
pub(crate) fn limits_there(s: &[u8]) -> Limits
    requires { length s.now ≡ media_places }
    ensures { result ≡ limits_of s.now }
{
    Limits {
        media_ids: long(s, 0),
        control_ids: long(s, 8),
        sections: long(s, 16),
        mfu_area: long(s, 24),
        message_area: long(s, 32),
        table_area: long(s, 40),
        packets: long(s, 48),
        pass_scrambled: flag(s, 56),
    }
}

pub(crate) fn store_limits(s: &mut [u8], l: Limits)
    requires { state_size ≤ length s.old }
    ensures { s.new ≡ over 0 (written (limits_fields l)) s.old }
{
    bytes::put4(
        s,
        0,
        0x8888,
        l.media_ids,
        l.control_ids,
        l.sections,
        l.mfu_area,
    );
    bytes::put4(
        s,
        32,
        0x8881,
        l.message_area,
        l.table_area,
        l.packets,
        l.pass_scrambled as u64,
    );
}

// Laid into each caller likewise.
#[tactic(auto, unfolding(crate::specs::Memory::Session::used_of))]
#[inline(always)]
pub(crate) fn load_used(s: &[u8]) -> Used
    ensures { result ≡ used_of s.now }
{
    Used {
        media_ids: bytes::get_u32(s, USED),
        control_ids: bytes::get_u32(s, USED + 4),
        sections: bytes::get_u32(s, USED + 8),
    }
}

// The same of a head that is there, without a test of each place for the same reason.
#[tactic(auto, unfolding(crate::specs::Memory::Session::used_of))]
pub(crate) fn used_there(s: &[u8]) -> Used
    requires { length s.now ≡ media_places }
    ensures { result ≡ used_of s.now }
{
    Used {
        media_ids: word(s, USED),
        control_ids: word(s, USED + 4),
        sections: word(s, USED + 8),
    }
}

pub(crate) fn store_used(s: &mut [u8], u: Used)
    requires { state_size ≤ length s.old }
    ensures { s.new ≡ over used_place (written (used_fields u)) s.old }
{
    bytes::put4(
        s,
        USED,
        0x4440,
        u.media_ids as u64,
        u.control_ids as u64,
        u.sections as u64,
        0,
    );
}

#[tactic(auto, unfolding(crate::specs::Memory::Session::latest_of))]
pub(crate) fn load_latest(s: &[u8]) -> Latest
    ensures { result ≡ latest_of s.now }
{
    Latest {
        plt: flag(s, LATEST),
        plt_length: bytes::get_u32(s, LATEST + 1),
        tot: flag(s, LATEST + 5),
        tot_length: bytes::get_u32(s, LATEST + 6),
    }
}

// The same of a head that is there, without a test of each place for the same reason.
#[tactic(auto, unfolding(crate::specs::Memory::Session::latest_of))]
pub(crate) fn latest_there(s: &[u8]) -> Latest
    requires { length s.now ≡ media_places }
    ensures { result ≡ latest_of s.now }
{
    Latest {
        plt: flag(s, LATEST),
        plt_length: word(s, LATEST + 1),
        tot: flag(s, LATEST + 5),
        tot_length: word(s, LATEST + 6),
    }
}

pub(crate) fn store_latest(s: &mut [u8], x: Latest)
    requires { state_size ≤ length s.old }
    ensures { s.new ≡ over latest_place (written (latest_fields x)) s.old }
{
    bytes::put4(
        s,
        LATEST,
        0x1414,
        x.plt as u64,
        x.plt_length as u64,
        x.tot as u64,
        x.tot_length as u64,
    );
}

#[tactic(auto, unfolding(crate::specs::Memory::Session::time_of))]
pub(crate) fn load_time(s: &[u8]) -> Time
    ensures { result ≡ time_of s.now }
{
    Time {
        seen: flag(s, TIME),
        timestamp: bytes::get_u64(s, TIME + 1),
    }
}

pub(crate) fn store_time(s: &mut [u8], x: Time)
    requires { state_size ≤ length s.old }
    ensures { s.new ≡ over time_place (written (time_fields x)) s.old }
{
    bytes::put4(s, TIME, 0x1800, x.seen as u64, x.timestamp, 0, 0);
}

pub(crate) fn store_counters(s: &mut [u8], c: Counters)
    requires { state_size ≤ length s.old }
    ensures { s.new ≡ over counters_place (written (counters_fields c)) s.old }
{
    counts::put_counters(s, c);
}
