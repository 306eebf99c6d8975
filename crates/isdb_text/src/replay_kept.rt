// The line of a kept table as `replay` writes it: which it is, and its bytes.
ghost use Rattle.isdb_text.specs.Text.{Wrote};
ghost use Rattle.isdb_text.specs.ReplayKept.{name_text, bytes_line, reading_line, reading_line_by_number};

use crate::kept_tables::Table;
use crate::{fill, text};
use isdb_mmt::decoder::refusal::Refusal;
use isdb_mmt::part::Part;

fn name_text(out: &mut [u8], at: usize, table: Table) -> usize
    ensures { Wrote out.old at (name_text table) out.new result }
{
    match table {
        Table::Mpt(id) => fill::fill(out, at, b"kept mpt # ", &[id as u64]),
        Table::Plt => text::put(out, at, b"kept plt "),
        Table::Section(key) => fill::fill(out, at, b"kept section %%%%%%%% ", &[key as u64]),
        Table::Tot => text::put(out, at, b"kept tot "),
    }
}

#[tactic(auto, using(crate::proofs::Written::writing), unfolding(crate::specs::ReplayKept::bytes_line))]
fn bytes_line(out: &mut [u8], at: usize, table: Table, b: &[u8]) -> usize
    ensures { Wrote out.old at (bytes_line table b.now) out.new result }
{
    let p = name_text(out, at, table);
    let q = text::hex(out, p, b);
    text::put(out, q, b"\n")
}

// By what is read of it; none where it is not kept.
pub fn reading_line(
    out: &mut [u8],
    at: usize,
    table: Table,
    r: Result<Option<Part>, Refusal>,
    tables: &[u8],
) -> usize
    ensures { Wrote out.old at (reading_line table r tables.now) out.new result }
{
    match r {
        Ok(p) => reading_line_by_number(out, at, table, Ok(p), tables),
        Err(e) => reading_line_by_number(out, at, table, Err(e.number()), tables),
    }
}

// The same with any number for a reading that is turned down.
pub fn reading_line_by_number(
    out: &mut [u8],
    at: usize,
    table: Table,
    r: Result<Option<Part>, u8>,
    tables: &[u8],
) -> usize
    ensures { Wrote out.old at (reading_line_by_number table r tables.now) out.new result }
{
    match r {
        Ok(Some(p)) => bytes_line(out, at, table, p.of(tables)),
        Ok(None) => text::place(out, at),
        Err(n) => fill::fill(out, at, b"kept refused #\n", &[n as u64]),
    }
}
