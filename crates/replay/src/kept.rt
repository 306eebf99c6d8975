// The kept tables of a session: which each is, and its bytes. A kept table has at most 4,096 bytes.
use isdb_mmt::decoder::refusal::Refusal;
use isdb_mmt::decoder::session::Session;
use isdb_mmt::part::Part;
use isdb_text::kept_tables::{Kept, Table};
use isdb_text::{kept_tables, replay_kept};

fn say_table(
    rt: HostRuntime,
    line: &mut [u8; 16384],
    table: Table,
    r: Result<Option<Part>, Refusal>,
    tables: &[u8],
) {
    let n = replay_kept::reading_line(line, 0, table, r, tables);
    stdio::write_text(&mut rt.stdout(), line, n);
}

// A session here has at most 4 control ids and 64 sections, so the turns suffice.
pub fn say_all(rt: HostRuntime, session: Session<'_>) {
    let mut line = [0u8; 16384];
    for i in 0..4 {
        let mut ahead = kept_tables::replay_order(i);
        for _ in 0..65536 {
            let step = kept_tables::next(session, ahead);
            let Some(
                Kept {
                    table,
                    reading,
                    next,
                },
            ) = step
            else {
                break;
            };
            say_table(rt, &mut line, table, reading, session.tables);
            ahead = next;
        }
    }
}
