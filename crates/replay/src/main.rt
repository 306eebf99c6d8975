// Replays a fixed list of feeds: standard input as items one behind the other. `S` and a byte opens a session, whose scrambled payloads
// are passed on where the byte is not 0; a TLV packet (7Fh, kind, length, data) is pushed into it; `L` lists what the session holds.
#![tactic(auto)]

ghost use Rattle.std.specs.Prelude.{◌<◌, length};

mod kept;

use isdb_mmt::decoder;
use isdb_mmt::decoder::limits::Limits;
use isdb_mmt::decoder::records::HandedOut;
use isdb_mmt::decoder::refusal::Refusal;
use isdb_mmt::decoder::session::{Session, SessionMut};
use isdb_text::{dump_session, fill};
use isdb_tlv::cut::Cut;
use isdb_tlv::{bytes, crc, cut};

fn limits(passing: u8) -> Limits {
    Limits {
        media_ids: 8,
        control_ids: 4,
        sections: 64,
        mfu_area: 16384,
        message_area: 16384,
        table_area: 4096,
        packets: 4294967295,
        pass_scrambled: passing != 0,
    }
}

// The bytes of so many rows, of which there are at most 1,024.
fn row_bytes(records: u64) -> usize {
    if records < 1024 {
        return records as usize * 36;
    }
    36864
}

// The number of an answer; 0, where nothing was turned down.
fn number<T: Copy>(a: Result<T, Refusal>) -> u64 {
    match a {
        Ok(_) => 0,
        Err(e) => u64::from(e.number()),
    }
}

// What a push gave: its number, records and data bytes, and the CRCs of both.
fn say_answer(rt: HostRuntime, a: Result<HandedOut, Refusal>, rows: &[u8], data: &[u8]) {
    let mut text = [0u8; 256];
    let h = a.unwrap_or(HandedOut {
        records: 0,
        bytes: 0,
    });
    let given_rows = bytes::part(rows, 0, row_bytes(h.records));
    let given = bytes::part(data, 0, h.bytes as usize);
    let values = [
        number(a),
        h.records,
        h.bytes,
        crc::crc32(given_rows) as u64,
        crc::crc32(given) as u64,
    ];
    let n = fill::fill(
        &mut text,
        0,
        b"push # records # bytes # %%%%%%%% %%%%%%%%\n",
        &values,
    );
    stdio::write_text(&mut rt.stdout(), &text, n);
}

fn open_session(rt: HostRuntime, session: &mut SessionMut<'_>, passing: u8) {
    let mut text = [0u8; 64];
    let state = &mut *session.state;
    let others = &mut *session.others;
    let objects = &mut *session.objects;
    let messages = &mut *session.messages;
    let tables = &mut *session.tables;
    let a = decoder::open(limits(passing), state, others, objects, messages, tables);
    let n = fill::fill(
        &mut text,
        0,
        b"open # number #\n",
        &[passing as u64, number(a)],
    );
    stdio::write_text(&mut rt.stdout(), &text, n);
}

fn list(rt: HostRuntime, session: Session<'_>) {
    let mut text = [0u8; 65536];
    let n = dump_session::session_lines(session, &mut text, 0);
    stdio::write_text(&mut rt.stdout(), &text, n);
    kept::say_all(rt, session);
}

// Pushes the packet that stands at a place, and answers the place behind it; where none stands, the end.
#[tactic(auto, using(crate::proofs::Ahead::packet_ahead))]
fn take_packet(
    rt: HostRuntime,
    session: &mut SessionMut<'_>,
    rows: &mut [u8; 36864],
    data: &mut [u8; 131072],
    input: &[u8],
    at: usize,
) -> usize
    requires { at < length input.now }
    ensures { at < result }
{
    match cut::cut_at(input, 65535, at) {
        Cut::Packet {
            kind,
            start,
            length,
            next,
        } => {
            let packet = bytes::part(input, start, length);
            say_answer(rt, session.push(kind, packet, rows, data), rows, data);
            next
        }
        _ => {
            stdio::say(&mut rt.stdout(), b"no item\n");
            input.len()
        }
    }
}

// Takes the items one after the other, up to the end or to what is none.
fn run(
    rt: HostRuntime,
    session: &mut SessionMut<'_>,
    rows: &mut [u8; 36864],
    data: &mut [u8; 131072],
    input: &[u8],
) {
    let mut at: usize = 0;
    // By place: where the next item stands is known once this one is taken.
    while at < input.len() {
        let item = input[at];
        if item == b'S' {
            let passing = bytes::get_u8(input, at + 1);
            open_session(rt, session, passing);
            at += 2;
        } else if item == b'L' {
            list(rt, session.read());
            at += 1;
        } else {
            at = take_packet(rt, session, rows, data, input, at);
        }
    }
}

fn replay(rt: HostRuntime, input: &[u8]) {
    let mut state = [0u8; 13144];
    let mut others = [0u64; 256];
    let mut objects = [0u8; 131072];
    let mut messages = [0u8; 65536];
    let mut tables = [0u8; 286720];
    let mut rows = [0u8; 36864];
    let mut data = [0u8; 131072];
    let mut session = SessionMut {
        state: &mut state,
        others: &mut others,
        objects: &mut objects,
        messages: &mut messages,
        tables: &mut tables,
    };
    run(rt, &mut session, &mut rows, &mut data, input);
}

// Replays the list that standard input holds; one that fills the window may go on behind it.
fn replay_input(rt: HostRuntime, window: &mut [u8; 524288]) {
    let n = stdio::read_full(&mut rt.stdin(), window);
    if n == 524288 {
        return stdio::say(
            &mut rt.stdout(),
            b"the list is too long: it must have fewer than 524288 bytes\n",
        );
    }
    replay(rt, &window[..n]);
}

fn main(rt: HostRuntime) {
    let mut input = [0u8; 524288];
    replay_input(rt, &mut input);
}
