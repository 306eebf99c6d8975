// The counts of a session: of each media packet id, and of the feed.
// The structs are translated from mpu.rs and decoder.rs of isdb-rs (Apache-2.0, see NOTICE) and changed.
ghost use Rattle.std.specs.Prelude.{◌≡◌};
ghost use Rattle.isdb_tlv.specs.Fields.{puts};
ghost use Rattle.isdb_mmt.specs.Memory.Layout.{counters_place, stats_place};
ghost use Rattle.isdb_mmt.specs.Memory.Session.{stats_of, stats_fields, counters_of, counters_fields};

use crate::decoder::layout::{COUNTERS, STATS};
use isdb_tlv::bytes;

// The counts of a media packet id.
#[derive(Clone, Copy)]
pub struct AssetStats {
    pub packets: u64,
    pub packets_lost: u64,
    pub scrambled_packets: u64,
    pub mfus: u64,
    pub scrambled_mfus: u64,
    pub mfus_dropped: u64,
    pub mpus: u64,
    pub mpu_sequence_jumps: u64,
    pub malformed: u64,
}

// The counts of the feed. Of messages: fragments without a message, messages above the maximum, and messages and tables
// whose lengths do not fit. Broken descriptor loops are the last.
#[derive(Clone, Copy)]
pub struct Counters {
    pub tlv_packets: u64,
    pub ip_errors: u64,
    pub non_mmtp: u64,
    pub ntp: u64,
    pub tables: u64,
    pub crc_errors: u64,
    pub malformed: u64,
    pub version_changes: u64,
    pub orphan_fragments: u64,
    pub oversize: u64,
    pub message_malformed: u64,
    pub split_errors: u64,
}

// From a media place's bytes.
#[tactic(auto, unfolding(crate::specs::Memory::Session::stats_of))]
pub(crate) fn stats_of(p: &[u8]) -> AssetStats
    ensures { result ≡ stats_of p.now }
{
    AssetStats {
        packets: bytes::get_u64(p, STATS),
        packets_lost: bytes::get_u64(p, STATS + 8),
        scrambled_packets: bytes::get_u64(p, STATS + 16),
        mfus: bytes::get_u64(p, STATS + 24),
        scrambled_mfus: bytes::get_u64(p, STATS + 32),
        mfus_dropped: bytes::get_u64(p, STATS + 40),
        mpus: bytes::get_u64(p, STATS + 48),
        mpu_sequence_jumps: bytes::get_u64(p, STATS + 56),
        malformed: bytes::get_u64(p, STATS + 64),
    }
}

pub(crate) fn put_stats(p: &mut [u8], s: AssetStats)
    ensures { p.new ≡ puts stats_place (stats_fields s) p.old }
{
    bytes::put4(
        p,
        STATS,
        0x8888,
        s.packets,
        s.packets_lost,
        s.scrambled_packets,
        s.mfus,
    );
    bytes::put4(
        p,
        STATS + 32,
        0x8888,
        s.scrambled_mfus,
        s.mfus_dropped,
        s.mpus,
        s.mpu_sequence_jumps,
    );
    bytes::put_u64(p, STATS + 64, s.malformed);
}

// From the session's state.
#[tactic(auto, unfolding(crate::specs::Memory::Session::counters_of))]
pub(crate) fn counters_of(s: &[u8]) -> Counters
    ensures { result ≡ counters_of s.now }
{
    Counters {
        tlv_packets: bytes::get_u64(s, COUNTERS),
        ip_errors: bytes::get_u64(s, COUNTERS + 8),
        non_mmtp: bytes::get_u64(s, COUNTERS + 16),
        ntp: bytes::get_u64(s, COUNTERS + 24),
        tables: bytes::get_u64(s, COUNTERS + 32),
        crc_errors: bytes::get_u64(s, COUNTERS + 40),
        malformed: bytes::get_u64(s, COUNTERS + 48),
        version_changes: bytes::get_u64(s, COUNTERS + 56),
        orphan_fragments: bytes::get_u64(s, COUNTERS + 64),
        oversize: bytes::get_u64(s, COUNTERS + 72),
        message_malformed: bytes::get_u64(s, COUNTERS + 80),
        split_errors: bytes::get_u64(s, COUNTERS + 88),
    }
}

pub(crate) fn put_counters(s: &mut [u8], c: Counters)
    ensures { s.new ≡ puts counters_place (counters_fields c) s.old }
{
    bytes::put4(
        s,
        COUNTERS,
        0x8888,
        c.tlv_packets,
        c.ip_errors,
        c.non_mmtp,
        c.ntp,
    );
    bytes::put4(
        s,
        COUNTERS + 32,
        0x8888,
        c.tables,
        c.crc_errors,
        c.malformed,
        c.version_changes,
    );
    bytes::put4(
        s,
        COUNTERS + 64,
        0x8888,
        c.orphan_fragments,
        c.oversize,
        c.message_malformed,
        c.split_errors,
    );
}
