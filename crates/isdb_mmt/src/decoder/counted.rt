// Packets that are only counted, and the time of an NTP packet.
ghost use Rattle.std.specs.Prelude.{◌≡◌};
ghost use Rattle.isdb_mmt.specs.Decoder.Model.{packet_counted};
ghost use Rattle.isdb_mmt.specs.Memory.Session.{counters_of};
ghost use Rattle.isdb_mmt.specs.Pushes.Leaves.{with_counters, with_time};
ghost use Rattle.isdb_mmt.specs.Pushes.Route.{time_given};
ghost use Rattle.isdb_mmt.specs.Pushes.Counted.{Countable, StateCountable};

use crate::decoder::counts::Counters;
use crate::decoder::head::Time;
use crate::decoder::{counts, head};

// One packet more, with what is counted of it beside tables.
#[tactic(auto, unfolding(crate::specs::Decoder::Model::packet_counted))]
pub(crate) fn packet_counted(c: Counters, ip: u64, non: u64, time: u64) -> Counters
    requires { Countable c ip non time }
    ensures { result ≡ packet_counted c ip non time }
{
    Counters {
        tlv_packets: c.tlv_packets + 1,
        ip_errors: c.ip_errors + ip,
        non_mmtp: c.non_mmtp + non,
        ntp: c.ntp + time,
        ..c
    }
}

pub(crate) fn count_packet(state: &mut [u8], ip: u64, non: u64)
    requires { StateCountable state.old ip non 0 }
    ensures { state.new ≡ with_counters (packet_counted (counters_of state.old) ip non 0) state.old }
{
    let c = counts::counters_of(state);
    head::store_counters(state, packet_counted(c, ip, non, 0));
}

fn store_seen(state: &mut [u8], t: Option<u64>)
    requires { StateCountable state.old 0 0 1 }
    ensures { state.new ≡ with_time (time_given t) state.old }
{
    if let Some(timestamp) = t {
        head::store_time(
            state,
            Time {
                seen: true,
                timestamp,
            },
        );
    }
}

// An NTP packet: its transmit timestamp, where it is there.
pub(crate) fn push_time(state: &mut [u8], t: Option<u64>)
    requires { StateCountable state.old 0 0 1 }
    ensures { state.new ≡ with_counters (packet_counted (counters_of state.old) 0 0 1) (with_time (time_given t) state.old) }
{
    let c = counts::counters_of(state);
    store_seen(state, t);
    head::store_counters(state, packet_counted(c, 0, 0, 1));
}
