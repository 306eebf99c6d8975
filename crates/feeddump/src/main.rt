// Lists everything that a recording holds: standard input as TLV packets, pushed into a session.
#![tactic(auto)]

mod tables;

ghost use Rattle.std.specs.Prelude.{◌≡◌};
ghost use Rattle.isdb_text.specs.DumpPackets.{told_of, progress_at};
ghost use Rattle.feeddump.specs.Pass.{is_bad, most_bytes, StopsAt};

use isdb_mmt::decoder::limits::Limits;
use isdb_mmt::decoder::many::{Progress, Pushes};
use isdb_mmt::decoder::session::{Session, SessionMut};
use isdb_mmt::{decoder, part};
use isdb_text::{dump_packets, dump_session, window};
use isdb_tlv::cut::Cut;
use isdb_tlv::{bytes, cut};

// The most data of a packet.
const MOST: usize = 65535;

// From here on the text is written out before a line is added, of which each is far below 1,024 bytes.
const FULL: usize = 64512;

// How far reading came: the place in the window, the packets taken, the place in the text, and whether what stands there is no packet.
#[derive(Clone, Copy)]
struct Passed {
    at: usize,
    packets: u64,
    text: usize,
    bad: bool,
}

// How far the packets of a call are written: the place in the text, and where the packet behind them stands.
#[derive(Clone, Copy)]
struct Told {
    text: usize,
    behind: Progress,
}

fn limits() -> Limits {
    Limits {
        media_ids: 16,
        control_ids: 16,
        sections: 128,
        mfu_area: 131072,
        message_area: 65536,
        table_area: 8192,
        packets: 4294967295,
        pass_scrambled: true,
    }
}

// Writes out the text in front of a place; the next stands at 0 again.
fn write_text(rt: HostRuntime, text: &[u8; 65536], at: usize) -> usize {
    stdio::write_text(&mut rt.stdout(), text, at);
    0
}

// A place where a line has room.
fn make_room(rt: HostRuntime, text: &[u8; 65536], at: usize) -> usize {
    if at < FULL {
        return at;
    }
    write_text(rt, text, at)
}

// The lines of a packet of a call, which stands at x, and of the records up to those of the next, at y.
fn packet_lines(
    rt: HostRuntime,
    text: &mut [u8; 65536],
    at: usize,
    first: u64,
    input: &[u8],
    rows: &[u8; 147456],
    data: &[u8; 262144],
    lines: &[u8; 65536],
    a: Pushes,
    x: Progress,
    y: Progress,
) -> usize {
    let mut p = make_room(rt, text, at);
    p = dump_packets::packet_line(text, p, first, input, MOST, lines, a, x);
    for i in x.records..y.records {
        p = make_room(rt, text, p);
        p = dump_packets::record_line(text, p, rows, data, x, i);
    }
    p
}

// The lines of all packets of a call that are to be written. The first has the number first.
#[tactic(auto, using(isdb_text::proofs::PacketWalk::walk_begins, isdb_text::proofs::PacketWalk::walk_on, isdb_text::proofs::PacketWalk::walk_done))]
fn call_lines(
    rt: HostRuntime,
    text: &mut [u8; 65536],
    at: usize,
    first: u64,
    input: &[u8],
    rows: &[u8; 147456],
    data: &[u8; 262144],
    lines: &[u8; 65536],
    a: Pushes,
) -> Told
    ensures { result.behind ≡ progress_at input.now most_bytes lines.now a (told_of a) }
{
    let mut p = at;
    let mut x = dump_packets::start();
    for _ in 0..dump_packets::told(a) {
        let y = dump_packets::behind(input, MOST, lines, a, x);
        p = packet_lines(rt, text, p, first, input, rows, data, lines, a, x, y);
        x = y;
    }
    Told { text: p, behind: x }
}

// Pushes the packets of a window, and writes the lines of each.
fn pass(
    rt: HostRuntime,
    session: &mut SessionMut<'_>,
    rows: &mut [u8; 147456],
    data: &mut [u8; 262144],
    lines: &mut [u8; 65536],
    text: &mut [u8; 65536],
    window: &[u8],
    packets: u64,
    place: usize,
) -> Passed
    ensures { StopsAt window.now result }
{
    part::measured(window);
    let mut at: usize = 0;
    let mut n = packets;
    let mut p = place;
    // A cursor: where the next call begins is known once the packets of this one are.
    while let Cut::Packet { .. } = cut::cut_at(window, MOST, at) {
        let rest = bytes::rest(window, at);
        let a = session.push_all(rest, MOST, rows, data, lines);
        let t = call_lines(rt, text, p, n, rest, rows, data, lines, a);
        let x = t.behind;
        p = t.text;
        n = n.wrapping_add(x.packets as u64);
        at += x.at;
    }
    stopped(at, n, p, cut::cut_at(window, MOST, at))
}

// Where no packet stands.
fn stopped(at: usize, packets: u64, text: usize, cut: Cut) -> Passed
    ensures { result ≡ record { at = at; packets = packets; text = text; bad = is_bad cut } }
{
    Passed {
        at,
        packets,
        text,
        bad: matches!(cut, Cut::Bad),
    }
}

// The line that says how reading ended: with n bytes left from base on.
fn end_line(
    rt: HostRuntime,
    text: &mut [u8; 65536],
    at: usize,
    n: usize,
    base: u64,
    packets: u64,
) -> usize {
    let p = make_room(rt, text, at);
    if n == 0 {
        return dump_session::end_packets(text, p, packets);
    }
    dump_session::end_bad(text, p, base)
}

// Reads to the end, and answers the place in the text.
fn read_all(
    rt: HostRuntime,
    session: &mut SessionMut<'_>,
    rows: &mut [u8; 147456],
    data: &mut [u8; 262144],
    lines: &mut [u8; 65536],
    text: &mut [u8; 65536],
    window: &mut [u8; 131072],
) -> usize {
    let mut base: u64 = 0;
    let mut n: usize = 0;
    let mut packets: u64 = 0;
    let mut p: usize = 0;
    for _ in 0..u64::MAX {
        let m = stdio::read_behind(&mut rt.stdin(), window, n);
        if m <= n {
            return end_line(rt, text, p, n, base, packets);
        }
        let w = bytes::part(window, 0, m);
        let x = pass(rt, session, rows, data, lines, text, w, packets, p);
        packets = x.packets;
        p = x.text;
        base = base.wrapping_add(x.at as u64);
        if x.bad {
            return end_line(rt, text, p, 1, base, packets);
        }
        n = window::to_front(window, x.at, m);
    }
    p
}

// Everything that is kept.
fn report(rt: HostRuntime, session: Session<'_>, text: &mut [u8; 65536], at: usize) {
    let p = write_text(rt, text, at);
    let q = dump_session::session_lines(session, text, p);
    write_text(rt, text, q);
    tables::write_tables(rt, session);
}

// By the five buffers: the check would compute the lengths of slices of arrays that it knows, element by element.
fn run(
    rt: HostRuntime,
    state: &mut [u8; 13144],
    others: &mut [u64; 256],
    objects: &mut [u8; 2097152],
    messages: &mut [u8; 1048576],
    tables: &mut [u8; 1196032],
) {
    let mut rows = [0u8; 147456];
    let mut data = [0u8; 262144];
    let mut lines = [0u8; 65536];
    let mut text = [0u8; 65536];
    let mut window = [0u8; 131072];
    // The limits and the buffers are those of an opening that is taken.
    let _ = decoder::open(limits(), state, others, objects, messages, tables);
    let mut session = SessionMut {
        state,
        others,
        objects,
        messages,
        tables,
    };
    let at = read_all(
        rt,
        &mut session,
        &mut rows,
        &mut data,
        &mut lines,
        &mut text,
        &mut window,
    );
    report(rt, session.read(), &mut text, at);
}

fn main(rt: HostRuntime) {
    let mut state = [0u8; 13144];
    let mut others = [0u64; 256];
    let mut objects = [0u8; 2097152];
    let mut messages = [0u8; 1048576];
    let mut tables = [0u8; 1196032];
    run(
        rt,
        &mut state,
        &mut others,
        &mut objects,
        &mut messages,
        &mut tables,
    );
}
