// The kept tables, each written as soon as its text is made. A kept table has at most 8,192 bytes, and its text fits in 524,288: no line of
// it has more than 64 bytes for each byte that it shows.
use isdb_mmt::decoder::refusal::Refusal;
use isdb_mmt::decoder::session::Session;
use isdb_mmt::part::Part;
use isdb_text::kept_tables::{Kept, Table};
use isdb_text::{dump_kept, kept_tables};

fn write_table(
    rt: HostRuntime,
    text: &mut [u8; 524288],
    table: Table,
    r: Result<Option<Part>, Refusal>,
    tables: &[u8],
) {
    let n = dump_kept::reading_lines(text, 0, table, r, tables);
    stdio::write_text(&mut rt.stdout(), text, n);
}

// A session here has at most 16 control ids and 128 sections, so the turns suffice.
pub fn write_tables(rt: HostRuntime, session: Session<'_>) {
    let mut text = [0u8; 524288];
    for i in 0..8 {
        let mut ahead = kept_tables::dump_order(i);
        for _ in 0..65536 {
            let step = kept_tables::next(session, ahead);
            let Some(
                Kept {
                    table,
                    reading,
                    next,
                },
            ) = step
            else {
                break;
            };
            write_table(rt, &mut text, table, reading, session.tables);
            ahead = next;
        }
    }
}
