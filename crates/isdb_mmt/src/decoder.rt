// The decoder's session, in memory that the host lends: its limits and their questions, its places, opening and the check
// before a call.
ghost use Rattle.std.specs.Prelude.{◌≡◌, ◌≤◌, length};
ghost use Rattle.isdb_mmt.specs.Memory.Lent.{over};
ghost use Rattle.isdb_mmt.specs.Memory.Layout.{table_ids, state_size};
ghost use Rattle.isdb_mmt.specs.Memory.Lending.{lent_by, lent_mut, SameBuffers, session_asked};
ghost use Rattle.isdb_mmt.specs.Memory.Refusals.{answer_number};
ghost use Rattle.isdb_mmt.specs.Pushes.Answer.{answered};
ghost use Rattle.isdb_mmt.specs.Memory.Opening.{lent, opened_state, Opened};
ghost use Rattle.isdb_mmt.specs.Pushes.Push.{input, Pushed};
ghost use Rattle.isdb_mmt.specs.Pushes.PushAll.{AllPushed};
ghost use Rattle.isdb_mmt.specs.Pushes.PushAllSteps.{MayBeKnown};

use crate::decoder::layout::STATE_SIZE;
use crate::decoder::limits::{Lengths, Limits};
use crate::decoder::many::Pushes;
use crate::decoder::plain::Plain;
use crate::decoder::records::HandedOut;
use crate::decoder::refusal::Refusal;
use crate::decoder::session::{Session, SessionMut};

mod check;
mod commit;
mod control;
mod counted;
pub mod counts;
mod head;
pub mod ids;
mod joined;
pub mod kept;
mod layout;
pub mod limits;
pub mod many;
mod media;
mod messages;
mod place;
mod plain;
mod push_control;
mod push_media;
mod push_message;
pub mod readings;
mod reassembler;
pub mod records;
pub mod refusal;
mod room;
mod route;
mod section;
pub mod session;
mod start;
mod table_outcome;
mod take;
mod walk;

fn open_state(s: &mut [u8], l: Limits)
    requires { state_size ≤ length s.old }
    ensures { s.new ≡ over 0 (opened_state l) s.old }
{
    s[..STATE_SIZE].fill(0);
    head::store_limits(s, l);
}

// Opens a session with these limits. Turned down with nothing changed. The areas are only measured, so a host lends them to be read.
#[tactic(auto, using(crate::proofs::Opening::opens_long, crate::proofs::Opening::refuses, crate::proofs::Refusals::refusal_some, std::proofs::lemmas::Result::err_from_is_err_and))]
pub fn open(
    l: Limits,
    state: &mut [u8],
    others: &mut [u64; 256],
    objects: &[u8],
    messages: &[u8],
    tables: &[u8],
) -> Result<(), Refusal>
    ensures { Opened l (lent state.old others.old objects.now messages.now tables.now) (answer_number result) (lent state.new others.new objects.now messages.now tables.now) }
{
    let lengths = Lengths {
        state: state.len() as u64,
        objects: objects.len() as u64,
        messages: messages.len() as u64,
        tables: tables.len() as u64,
    };
    limits::ask(l, lengths)?;
    open_state(state, l);
    others.fill(0);
    Ok(())
}

// Whether the lent bytes hold a session: question 5, unless the answer is known to be yes.
#[tactic(auto, using(crate::proofs::PushAll::known_session))]
fn holds_session(session: Session<'_>, known: bool) -> Result<(), Refusal>
    requires { MayBeKnown known (lent_by session) }
    ensures { result ≡ session_asked (lent_by session.entry) }
{
    if known {
        return Ok(());
    }
    session.is_session()
}

#[tactic(auto, using(crate::proofs::Pushing::push_five, crate::proofs::Pushing::push_six, crate::proofs::Pushing::push_seven, std::proofs::lemmas::Result::err_from_is_err_and))]
pub(crate) fn push_in(
    session: &mut SessionMut<'_>,
    kind: u8,
    b: &[u8],
    rows: &mut [u8],
    out: &mut [u8],
    known: bool,
) -> Result<HandedOut, Refusal>
    requires { MayBeKnown known (lent_mut session.old) }
    ensures same_buffers { SameBuffers session.old session.new }
    ensures pushed { Pushed (lent_mut session.old) (input kind b.now rows.old out.old) (answered result).number (answered result).records (answered result).bytes (lent_mut session.new) rows.new out.new }
{
    holds_session(session.read(), known)?;
    if 65535 < b.len() {
        return Err(Refusal::PacketTooLong);
    }
    let state = &mut *session.state;
    if !take::may_take(state) {
        return Err(Refusal::PacketsUsedUp);
    }
    session.typed();
    place::octets(b);
    take::take(session, kind, b, rows, out)
}

// The same for one of many: where question 5 is known to be answered yes, the packets that are met most are tried first. `push_in` and
// `plain::push_plain` have two callers each, which keeps the compiler from laying all that any packet needs into the loop of `push_all`.
#[tactic(auto, using(crate::proofs::PlainPushes::still_known, crate::proofs::PlainPushes::plain_taken, crate::proofs::PlainPushes::plain_grown, crate::proofs::PlainPushes::then_pushed))]
pub(crate) fn push_tried(
    session: &mut SessionMut<'_>,
    kind: u8,
    b: &[u8],
    rows: &mut [u8],
    out: &mut [u8],
    known: bool,
) -> Result<HandedOut, Refusal>
    requires { MayBeKnown known (lent_mut session.old) }
    ensures same_buffers { SameBuffers session.old session.new }
    ensures pushed { Pushed (lent_mut session.old) (input kind b.now rows.old out.old) (answered result).number (answered result).records (answered result).bytes (lent_mut session.new) rows.new out.new }
{
    if !known {
        return push_in(session, kind, b, rows, out, known);
    }
    session.typed();
    match plain::push_plain(session, kind, b, rows, out) {
        Plain::Yes(n) => records::accepted(1, n as u64),
        Plain::Grown => records::accepted(0, 0),
        Plain::No => push_in(session, kind, b, rows, out, true),
    }
}

impl SessionMut<'_> {
    // Takes a packet of a kind byte and its data, and answers how many records and data bytes it handed out. Turned down with nothing
    // changed and nothing handed out. Records are rows of 36 bytes one behind the other from the start of `rows`, their data lie one
    // behind the other from the start of `out`; bytes beyond stay.
    #[tactic(auto, using(crate::proofs::Pushing::push_five, crate::proofs::PlainPushes::plain_taken, crate::proofs::PlainPushes::plain_grown, crate::proofs::PlainPushes::then_pushed, std::proofs::lemmas::Result::err_from_is_err_and))]
    pub fn push(
        &mut self,
        kind: u8,
        b: &[u8],
        rows: &mut [u8],
        out: &mut [u8],
    ) -> Result<HandedOut, Refusal>
        ensures same_buffers { SameBuffers self.old self.new }
        ensures pushed { Pushed (lent_mut self.old) (input kind b.now rows.old out.old) (answered result).number (answered result).records (answered result).bytes (lent_mut self.new) rows.new out.new }
    {
        self.read().is_session()?;
        self.typed();
        match plain::push_plain(self, kind, b, rows, out) {
            Plain::Yes(n) => records::accepted(1, n as u64),
            Plain::Grown => records::accepted(0, 0),
            Plain::No => push_in(self, kind, b, rows, out, true),
        }
    }

    // Takes packets that lie one behind the other in the input (0x7F, kind, length, data), with at most so many data each, until the
    // input ends, what is left is no packet or not a whole one, a packet is turned down, or there is no room for its line. Each is
    // pushed as `push` does it, into the rows and the data that the earlier ones left, so a record's data start counts from where its
    // packet's data begin. A line of 16 bytes a packet says how many records and data bytes it handed out.
    pub fn push_all(
        &mut self,
        input: &[u8],
        most: usize,
        rows: &mut [u8],
        out: &mut [u8],
        lines: &mut [u8],
    ) -> Pushes
        ensures same_buffers { SameBuffers self.old self.new }
        ensures pushed { AllPushed (lent_mut self.old) input.now most rows.old out.old lines.old result (lent_mut self.new) rows.new out.new lines.new }
    {
        many::push_all_in(self, input, most, rows, out, lines)
    }
}
