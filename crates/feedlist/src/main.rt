// Lists the media ids of a recording: standard input as TLV packets, pushed into a session.
#![tactic(auto)]

ghost use Rattle.std.specs.Prelude.{◌≡◌};
ghost use Rattle.isdb_mmt.specs.Memory.Refusals.{number_of};
ghost use Rattle.feedlist.specs.Pass.{ends_reading, StopsAt};

use isdb_mmt::decoder::limits::Limits;
use isdb_mmt::decoder::many::Halt;
use isdb_mmt::decoder::refusal::Refusal;
use isdb_mmt::decoder::session::{Session, SessionMut};
use isdb_mmt::{decoder, part};
use isdb_text::{listing, window};
use isdb_tlv::bytes;
use isdb_tlv::cut::Stop;

// The most data of a packet.
const MOST: usize = 16384;

// What was made of a window: all whole packets in it taken, and where the rest starts; or where reading stops.
#[derive(Clone, Copy)]
enum Passed {
    More(usize),
    Bad(usize),
    Refused(Refusal),
}

fn limits() -> Limits {
    Limits {
        media_ids: 4,
        control_ids: 4,
        sections: 4,
        mfu_area: 4096,
        message_area: 4096,
        table_area: 2048,
        packets: 4294967295,
        pass_scrambled: false,
    }
}

// Whether a packet that is turned down ends the reading: one that found no room behind others finds it when they are let go.
#[tactic(auto, unfolding(crate::specs::Pass::ends_reading))]
fn stops(refusal: Refusal, packets: usize) -> bool
    ensures { result ≡ ends_reading (number_of refusal) packets }
{
    packets == 0 || refusal.number() != 10
}

// Pushes the packets of a window. Where the outputs are full, what they hold is let go, and the rest of the window follows.
fn pass(
    session: &mut SessionMut<'_>,
    window: &[u8],
    rows: &mut [u8; 36864],
    data: &mut [u8; 16384],
    lines: &mut [u8; 16384],
) -> Passed
    ensures { StopsAt window.now result }
{
    part::measured(window);
    let mut at: usize = 0;
    // A `for` would need an answer behind its last turn, which is never reached.
    loop {
        let rest = bytes::rest(window, at);
        let a = session.push_all(rest, MOST, rows, data, lines);
        let x = a.progress;
        let h = a.halt;
        let next = at + x.at;
        match h {
            Halt::End => return Passed::More(next),
            Halt::Short => return Passed::More(next),
            Halt::Bad => return Passed::Bad(next),
            Halt::Full => {
                if x.packets == 0 {
                    return Passed::Refused(Refusal::OutputTooSmall);
                }
                at = next;
            }
            Halt::Refused(e) => {
                if stops(e, x.packets) {
                    return Passed::Refused(e);
                }
                at = next;
            }
        }
    }
}

fn read_all(
    rt: HostRuntime,
    session: &mut SessionMut<'_>,
    window: &mut [u8; 65536],
    rows: &mut [u8; 36864],
    data: &mut [u8; 16384],
    lines: &mut [u8; 16384],
) -> Stop {
    let mut base: u64 = 0;
    let mut n: usize = 0;
    for _ in 0..u64::MAX {
        let m = stdio::read_behind(&mut rt.stdin(), window, n);
        if m <= n {
            if n == 0 {
                return Stop::Clean;
            }
            return Stop::Bad(base);
        }
        match pass(session, bytes::part(window, 0, m), rows, data, lines) {
            Passed::More(at) => {
                n = window::to_front(window, at, m);
                base = base.wrapping_add(at as u64);
            }
            Passed::Bad(at) => return Stop::Bad(base.wrapping_add(at as u64)),
            Passed::Refused(e) => return Stop::Refused(e.number()),
        }
    }
    Stop::Clean
}

// Writes the list.
fn report(rt: HostRuntime, session: Session<'_>, stop: Stop) {
    let mut text = [0u8; 4096];
    let n = listing::listing(session, stop, &mut text, 0);
    stdio::write_text(&mut rt.stdout(), &text, n);
}

fn main(rt: HostRuntime) {
    let mut state = [0u8; 13144];
    let mut others = [0u64; 256];
    let mut objects = [0u8; 16384];
    let mut messages = [0u8; 16384];
    let mut tables = [0u8; 20480];
    let mut window = [0u8; 65536];
    let mut rows = [0u8; 36864];
    let mut data = [0u8; 16384];
    let mut lines = [0u8; 16384];
    // The limits and the buffers are those of an opening that is taken.
    let _ = decoder::open(
        limits(),
        &mut state,
        &mut others,
        &objects,
        &messages,
        &tables,
    );
    let mut session = SessionMut {
        state: &mut state,
        others: &mut others,
        objects: &mut objects,
        messages: &mut messages,
        tables: &mut tables,
    };
    let stop = read_all(
        rt,
        &mut session,
        &mut window,
        &mut rows,
        &mut data,
        &mut lines,
    );
    report(rt, session.read(), stop);
}
