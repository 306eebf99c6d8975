// Many packets in one call. Question 5 is asked once for all of them where the counts have room for all, and of each where they have not.
ghost use Rattle.std.specs.Prelude.{◌≡◌, ◌+◌, ◌*◌, ◌<◌, ◌≤◌, length, drop, Ok};
ghost use Rattle.isdb_tlv.specs.Fields.{puts};
ghost use Rattle.isdb_mmt.specs.Memory.Layout.{table_ids};
ghost use Rattle.isdb_mmt.specs.Pushes.Answer.{answered};
ghost use Rattle.isdb_mmt.specs.Memory.Lending.{lent_by, lent_mut, SameBuffers};
ghost use Rattle.isdb_mmt.specs.Pushes.PushAll.{line_size, line_fields, run_of, nothing_taken, AllPushed};
ghost use Rattle.isdb_mmt.specs.Pushes.PushAllSteps.{asked_once, CanPushBehind, PushedBehind, HasRest, ProgressFits, OnePushed, AtTurn, Turned};
ghost use Rattle.isdb_mmt.specs.Pushes.Push.{input};
ghost use Rattle.isdb_tlv.specs.Guards.{◌<?◌};

use crate::decoder::records::{HandedOut, ROW_SIZE};
use crate::decoder::refusal::Refusal;
use crate::decoder::session::{Session, SessionMut};
use crate::decoder::{place, room};
use crate::{decoder, part};
use isdb_tlv::cut::Cut;
use isdb_tlv::{bytes, cut};

// How far a call has come: the place in the input, the packets taken, and the records and data bytes that they handed out.
#[derive(Clone, Copy)]
pub struct Progress {
    pub at: usize,
    pub packets: usize,
    pub records: usize,
    pub bytes: usize,
}

// Why a call ends.
#[derive(Clone, Copy)]
pub enum Halt {
    // The input does.
    End,
    // What is left may be the start of a packet, which is not whole.
    Short,
    // What is left is no packet: another first byte, or more data than may be.
    Bad,
    // A whole packet is left, and no room for its line.
    Full,
    // A whole packet is left that is turned down.
    Refused(Refusal),
}

#[derive(Clone, Copy)]
pub struct Pushes {
    pub progress: Progress,
    pub halt: Halt,
}

const LINE_SIZE: usize = 16;

// So much input has room in counts up to 2^52.
const MOST_INPUT: usize = 2147483648;

#[tactic(auto, using(crate::proofs::PushAll::line_put))]
fn put_line(lines: &mut [u8], at: usize, a: HandedOut)
    ensures { lines.new ≡ puts at (line_fields a.records a.bytes) lines.old }
{
    bytes::put4(lines, at, 0x8800, a.records, a.bytes, 0, 0);
}

// Whether a packet more has no room for its line.
#[tactic(auto, using(crate::proofs::PushAll::no_line))]
fn no_line(lines: &[u8], x: Progress) -> bool
    requires { line_size * x.packets ≤ length lines.now }
    ensures { result ≡ (length lines.now <? line_size * x.packets + line_size) }
{
    lines.len() - LINE_SIZE * x.packets < LINE_SIZE
}

// Behind a packet that was taken.
fn progress_after(x: Progress, next: usize, a: HandedOut) -> Progress
    requires { ProgressFits x (answered (Ok a)) }
    ensures { result ≡ record { at = next; packets = x.packets + 1; records = x.records + a.records; bytes = x.bytes + a.bytes } }
{
    Progress {
        at: next,
        packets: x.packets + 1,
        records: x.records + a.records as usize,
        bytes: x.bytes + a.bytes as usize,
    }
}

// A packet, into the rows from first and the data from start on. Whether question 5 is known to be answered yes is said by known.
fn push_behind(
    session: &mut SessionMut<'_>,
    kind: u8,
    b: &[u8],
    rows: &mut [u8],
    first: usize,
    out: &mut [u8],
    start: usize,
    known: bool,
) -> Result<HandedOut, Refusal>
    requires { CanPushBehind known (lent_mut session.old) first rows.old start out.old }
    ensures same_buffers { SameBuffers session.old session.new }
    ensures pushed { PushedBehind (lent_mut session.old) (input kind b.now (drop first rows.old) (drop start out.old)) first rows.old start out.old (answered result) (lent_mut session.new) rows.new out.new }
{
    decoder::push_tried(
        session,
        kind,
        b,
        &mut rows[first..],
        &mut out[start..],
        known,
    )
}

// One packet, behind those of the progress.
#[tactic(auto, using(crate::proofs::PushAll::step_taken, std::proofs::lemmas::Result::err_from_is_err_and))]
fn push_next(
    session: &mut SessionMut<'_>,
    kind: u8,
    b: &[u8],
    rows: &mut [u8],
    out: &mut [u8],
    lines: &mut [u8],
    x: Progress,
    known: bool,
) -> Result<HandedOut, Refusal>
    requires { HasRest known (run_of (lent_mut session.old) rows.old out.old lines.old x) }
    ensures same_buffers { SameBuffers session.old session.new }
    ensures pushed { OnePushed (run_of (lent_mut session.old) rows.old out.old lines.old x) (record { kind = kind; bytes = b.now }) (answered result) (lent_mut session.new) rows.new out.new lines.new }
{
    let first = ROW_SIZE * x.records;
    let at = LINE_SIZE * x.packets;
    let start = x.bytes;
    let a = push_behind(session, kind, b, rows, first, out, start, known)?;
    put_line(lines, at, a);
    Ok(a)
}

// One turn: what stands at the place reached is a packet, which is pushed, or it ends the call. Answers the progress behind the packet.
fn take_turn(
    session: &mut SessionMut<'_>,
    input: &[u8],
    most: usize,
    rows: &mut [u8],
    out: &mut [u8],
    lines: &mut [u8],
    x: Progress,
    known: bool,
) -> Result<Progress, Halt>
    requires { AtTurn known input.now (run_of (lent_mut session.old) rows.old out.old lines.old x) }
    ensures same_buffers { SameBuffers session.old session.new }
    ensures pushed { Turned known input.now most (run_of (lent_mut session.old) rows.old out.old lines.old x) result (lent_mut session.new) rows.new out.new lines.new }
{
    match cut::cut_at(input, most, x.at) {
        Cut::Packet {
            kind,
            start,
            length,
            next,
        } => {
            if no_line(lines, x) {
                return Err(Halt::Full);
            }
            let b = bytes::part(input, start, length);
            place::octets(b);
            match push_next(session, kind, b, rows, out, lines, x, known) {
                Ok(a) => {
                    session.typed();
                    Ok(progress_after(x, next, a))
                }
                Err(e) => Err(Halt::Refused(e)),
            }
        }
        Cut::End => Err(Halt::End),
        Cut::Short => Err(Halt::Short),
        Cut::Bad => Err(Halt::Bad),
    }
}

// All packets of the input, one after the other. What is known says that question 5 need not be asked again.
#[tactic(auto, using(crate::proofs::PushAll::running_first, crate::proofs::PushAll::turn_can, crate::proofs::PushAll::turn_less, crate::proofs::PushAll::running_next))]
fn push_each(
    session: &mut SessionMut<'_>,
    input: &[u8],
    most: usize,
    rows: &mut [u8],
    out: &mut [u8],
    lines: &mut [u8],
    known: bool,
) -> Pushes
    requires { AtTurn known input.now (run_of (lent_mut session.old) rows.old out.old lines.old nothing_taken) }
    ensures same_buffers { SameBuffers session.old session.new }
    ensures pushed { AllPushed (lent_mut session.old) input.now most rows.old out.old lines.old result (lent_mut session.new) rows.new out.new lines.new }
{
    let mut x = Progress {
        at: 0,
        packets: 0,
        records: 0,
        bytes: 0,
    };
    // No iterator: where to go on, and how the call ends, is known only by the turn itself.
    loop {
        match take_turn(session, input, most, rows, out, lines, x, known) {
            Ok(y) => x = y,
            Err(halt) => return Pushes { progress: x, halt },
        }
    }
}

// Whether one answer to question 5 will do for n bytes of input.
#[tactic(auto, using(crate::proofs::RoomTest::once_long, crate::proofs::RoomTest::once_unsound, crate::proofs::RoomTest::once_room))]
fn once(session: Session<'_>, n: usize) -> bool
    ensures { result ≡ asked_once (lent_by session.entry) n }
{
    if MOST_INPUT < n {
        return false;
    }
    let others = session.others;
    match session.is_session() {
        Ok(()) => room::has_room(session.state, others),
        Err(_) => false,
    }
}

pub(crate) fn push_all_in(
    session: &mut SessionMut<'_>,
    input: &[u8],
    most: usize,
    rows: &mut [u8],
    out: &mut [u8],
    lines: &mut [u8],
) -> Pushes
    ensures same_buffers { SameBuffers session.old session.new }
    ensures pushed { AllPushed (lent_mut session.old) input.now most rows.old out.old lines.old result (lent_mut session.new) rows.new out.new lines.new }
{
    session.typed();
    part::measured(rows);
    part::measured(out);
    part::measured(lines);
    let known = once(session.read(), input.len());
    push_each(session, input, most, rows, out, lines, known)
}
