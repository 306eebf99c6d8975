// A control packet: its sections are walked over on copies, then committed, or nothing is changed.
ghost use Rattle.isdb_mmt.specs.Memory.Lending.{lent_mut, SameBuffers};
ghost use Rattle.isdb_mmt.specs.Memory.Refusals.{answer_number};
ghost use Rattle.isdb_mmt.specs.Pushes.Push.{CanTakePacket, QuietPushed};
ghost use Rattle.isdb_mmt.specs.Pushes.Start.{signal_of, CopiesLent, CanLeave, SectionsLeft};

use crate::decoder::counts::Counters;
use crate::decoder::head::Used;
use crate::decoder::refusal::Refusal;
use crate::decoder::session::SessionMut;
use crate::decoder::walk::WalkState;
use crate::decoder::{commit, counted, counts, head, start, walk};
use isdb_tlv::bytes;

// What the sections leave.
fn leave(
    state: &mut [u8],
    others: &mut [u64],
    tables: &mut [u8],
    ix: &[u8],
    log: &[u64],
    mine: &[u64],
    c: Counters,
    g: WalkState,
    b: &[u8],
)
    requires { CanLeave state.old others.old tables.old ix.now log.now mine.now g b.now }
    ensures { SectionsLeft state.old tables.old ix.now log.now mine.now c g b.now state.new others.new tables.new }
{
    let l = head::load_limits(state);
    let u = head::load_used(state);
    let used = g.used;
    commit::store_sections(
        tables,
        ix,
        log,
        used,
        l.table_area as usize,
        bytes::part(b, 0, 0),
        b,
    );
    others.copy_from_slice(mine);
    let v = Used {
        sections: used as u32,
        ..u
    };
    commit::store_state(state, ix, v, start::counters_with(c, g));
}

fn push_on(
    session: &mut SessionMut<'_>,
    ix: &mut [u8],
    log: &mut [u64],
    mine: &mut [u64],
    b: &[u8],
) -> Result<(), Refusal>
    requires { CanTakePacket (lent_mut session.old) b.now × CopiesLent ix.old log.old mine.old }
    ensures same_buffers { SameBuffers session.old session.new }
    ensures pushed { QuietPushed (lent_mut session.old) (signal_of b.now) (answer_number result) (lent_mut session.new) }
{
    let state = &mut *session.state;
    let others = &mut *session.others;
    let tables = &mut *session.tables;
    let c = counted::packet_counted(counts::counters_of(state), 0, 0, 0);
    start::load_index(ix, state);
    log.fill(0);
    mine.copy_from_slice(others);
    let first = start::walk_start(state, tables, c, None);
    let g = walk::sections(ix, log, mine, first, b);
    start::tables_ask(head::load_limits(state), g)?;
    leave(state, others, tables, ix, log, mine, c, g, b);
    Ok(())
}

// A control packet, questions 5 to 7 answered. Turned down with nothing changed.
pub(crate) fn push_control(session: &mut SessionMut<'_>, b: &[u8]) -> Result<(), Refusal>
    requires { CanTakePacket (lent_mut session.old) b.now }
    ensures same_buffers { SameBuffers session.old session.new }
    ensures pushed { QuietPushed (lent_mut session.old) (signal_of b.now) (answer_number result) (lent_mut session.new) }
{
    let mut ix = [0u8; 4608];
    let mut log = [0u64; 512];
    let mut mine = [0u64; 256];
    push_on(session, &mut ix, &mut log, &mut mine, b)
}
