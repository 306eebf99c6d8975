// What a call for many packets gave, packet by packet, as `feeddump` writes it. A walk goes from packet to packet: `behind` says where the next
// one stands, and its records are those between the two.
ghost use Rattle.std.specs.Prelude.{◌≡◌, ◌<◌};
ghost use Rattle.isdb_mmt.specs.Pushes.PushAll.{line_size, nothing_taken};
ghost use Rattle.isdb_mmt.specs.Pushes.Answer.{answered};
ghost use Rattle.isdb_text.specs.Text.{Wrote};
ghost use Rattle.isdb_text.specs.DumpSession.{numbered};
ghost use Rattle.isdb_text.specs.DumpPackets.{nth_of, halt_number, turned_down_of, first_told, taken_of, answer_by_number, answer_of, told_of, next_place, behind_of, line_by_number, packet_of, record_of};

use crate::dump_session::NOTHING;
use crate::{dump_session, text};
use isdb_mmt::decoder::many::{Halt, Progress, Pushes};
use isdb_mmt::decoder::records::HandedOut;
use isdb_mmt::decoder::refusal::Refusal;
use isdb_tlv::cut::Cut;
use isdb_tlv::{bytes, cut};

const LINE_SIZE: usize = 16;

const ROW_SIZE: usize = 36;

// The i-th of a list of so many bytes each.
fn nth(list: &[u8], size: usize, i: usize) -> &[u8]
    requires { 0 < size }
    ensures { result.now ≡ nth_of size i list.now }
{
    if list.len() / size < i {
        return bytes::part(list, list.len(), size);
    }
    bytes::part(list, size * i, size)
}

fn halt_number(h: Halt) -> u8
    ensures { result ≡ halt_number h }
{
    match h {
        Halt::End | Halt::Short | Halt::Bad => 0,
        Halt::Full => 10,
        Halt::Refused(e) => e.number(),
    }
}

// To the packet at which a call ended, where one stands there.
fn last_answer(h: Halt) -> Result<HandedOut, Refusal>
    ensures { answered result ≡ turned_down_of (halt_number h) }
{
    match h {
        Halt::End | Halt::Short | Halt::Bad => Ok(NOTHING),
        Halt::Full => Err(Refusal::OutputTooSmall),
        Halt::Refused(e) => Err(e),
    }
}

// What an answer handed out; nothing, where the packet was turned down.
fn handed_out(a: Result<HandedOut, Refusal>) -> HandedOut
    ensures { result ≡ record { records = (answered a).records; bytes = (answered a).bytes } }
{
    a.unwrap_or(NOTHING)
}

fn first_told(h: Halt) -> usize
    ensures { result ≡ first_told h }
{
    match h {
        Halt::End | Halt::Short | Halt::Bad => 0,
        Halt::Full | Halt::Refused(_) => 1,
    }
}

// Where the first packet of a call stands.
pub fn start() -> Progress
    ensures { result ≡ nothing_taken }
{
    Progress {
        at: 0,
        packets: 0,
        records: 0,
        bytes: 0,
    }
}

// How many packets of a call are to be written.
#[tactic(auto, unfolding(crate::specs::DumpPackets::told_of))]
pub fn told(a: Pushes) -> usize
    ensures { result ≡ told_of a }
{
    if a.progress.packets == 0 {
        first_told(a.halt)
    } else {
        a.progress.packets
    }
}

// What a packet that was taken handed out, by its line.
fn line_of(lines: &[u8], k: usize) -> HandedOut
    ensures { numbered 0 result ≡ taken_of (nth_of line_size k lines.now) }
{
    let line = nth(lines, LINE_SIZE, k);
    HandedOut {
        records: bytes::get_u64(line, 0),
        bytes: bytes::get_u64(line, 8),
    }
}

// The answer to a packet of a call.
#[tactic(auto, unfolding(crate::specs::DumpPackets::answer_of))]
pub fn answer(lines: &[u8], a: Pushes, k: usize) -> Result<HandedOut, Refusal>
    ensures { answered result ≡ answer_of a lines.now k }
{
    if k < a.progress.packets {
        return Ok(line_of(lines, k));
    }
    last_answer(a.halt)
}

// The same by number, of a call that took so many packets: 0 and what was handed out, or the number with which the call ended.
pub fn answer_by_number(lines: &[u8], packets: usize, ended: u8, k: usize) -> (u8, HandedOut)
    ensures { numbered result.0 result.1 ≡ answer_by_number packets ended lines.now k }
{
    if k < packets {
        return (0, line_of(lines, k));
    }
    (ended, NOTHING)
}

fn next_place(c: Cut, at: usize) -> usize
    ensures { result ≡ next_place at c }
{
    match c {
        Cut::Packet {
            kind,
            start,
            length,
            next,
        } => next,
        Cut::End | Cut::Short | Cut::Bad => at,
    }
}

// Where the packet behind this one stands.
#[tactic(auto, unfolding(crate::specs::DumpPackets::behind_of))]
pub fn behind(input: &[u8], most: usize, lines: &[u8], a: Pushes, x: Progress) -> Progress
    ensures { result ≡ behind_of input.now most lines.now a x }
{
    let y = handed_out(answer(lines, a, x.packets));
    Progress {
        at: next_place(cut::cut_at(input, most, x.at), x.at),
        packets: std::num::wrapping_add_usize(x.packets, 1),
        records: std::num::wrapping_add_usize(x.records, y.records as usize),
        bytes: std::num::wrapping_add_usize(x.bytes, y.bytes as usize),
    }
}

// A packet's own line. The first of the call has the number first.
#[tactic(auto, unfolding(crate::specs::DumpPackets::packet_of))]
pub fn packet_line(
    out: &mut [u8],
    at: usize,
    first: u64,
    input: &[u8],
    most: usize,
    lines: &[u8],
    a: Pushes,
    x: Progress,
) -> usize
    ensures { Wrote out.old at (packet_of first input.now most lines.now a x) out.new result }
{
    let ended = halt_number(a.halt);
    let packets = a.progress.packets;
    packet_line_by_number(out, at, first, input, most, lines, packets, ended, x)
}

// The same by number, of a call that took so many packets and ended with this number: 0, or any other, of the packet behind them.
pub fn packet_line_by_number(
    out: &mut [u8],
    at: usize,
    first: u64,
    input: &[u8],
    most: usize,
    lines: &[u8],
    packets: usize,
    ended: u8,
    x: Progress,
) -> usize
    ensures { Wrote out.old at (line_by_number first input.now most lines.now packets ended x) out.new result }
{
    let (answer, h) = answer_by_number(lines, packets, ended, x.packets);
    let number = std::num::wrapping_add_u64(first, x.packets as u64);
    match cut::cut_at(input, most, x.at) {
        Cut::Packet {
            kind,
            start,
            length,
            next,
        } => dump_session::packet_line_by_number(out, at, number, kind, length as u64, answer, h),
        Cut::End | Cut::Short | Cut::Bad => text::place(out, at),
    }
}

// The line of a record of the call, one of those that the packet at x handed out.
#[tactic(auto, unfolding(crate::specs::DumpPackets::record_of))]
pub fn record_line(
    out: &mut [u8],
    at: usize,
    rows: &[u8],
    given: &[u8],
    x: Progress,
    i: usize,
) -> usize
    ensures { Wrote out.old at (record_of rows.now given.now x i) out.new result }
{
    let row = nth(rows, ROW_SIZE, i);
    dump_session::mfu_line(out, at, row, bytes::rest(given, x.bytes))
}
