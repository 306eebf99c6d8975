// The lines of a kept table as `feeddump` writes them, by which table it is.
ghost use Rattle.isdb_text.specs.Text.{Wrote};
ghost use Rattle.isdb_text.specs.DumpKept.{section_text, table_text, reading_text};

use crate::kept_tables::Table;
use crate::{dump_tables, text};
use isdb_mmt::decoder::refusal::Refusal;
use isdb_mmt::part::Part;

// By the table id of the key; every other than these is one of an EIT.
#[tactic(auto, unfolding(crate::specs::DumpKept::section_text))]
fn section_lines(out: &mut [u8], at: usize, key: u32, b: &[u8]) -> usize
    ensures { Wrote out.old at (section_text key b.now) out.new result }
{
    match key / 16777216 {
        0x9D => dump_tables::bit_lines(out, at, key, b),
        0x9F | 0xA0 => dump_tables::sdt_lines(out, at, key, b),
        0x40 | 0x41 => dump_tables::nit_lines(out, at, key, b),
        0xFE => dump_tables::amt_lines(out, at, key, b),
        _ => dump_tables::eit_lines(out, at, key, b),
    }
}

fn table_lines(out: &mut [u8], at: usize, table: Table, b: &[u8]) -> usize
    ensures { Wrote out.old at (table_text table b.now) out.new result }
{
    match table {
        Table::Mpt(id) => dump_tables::mpt_lines(out, at, id, b),
        Table::Plt => dump_tables::plt_lines(out, at, b),
        Table::Section(key) => section_lines(out, at, key, b),
        Table::Tot => dump_tables::tot_lines(out, at, b),
    }
}

// By what is read of it; none where it is not kept or cannot be read.
pub fn reading_lines(
    out: &mut [u8],
    at: usize,
    table: Table,
    r: Result<Option<Part>, Refusal>,
    tables: &[u8],
) -> usize
    ensures { Wrote out.old at (reading_text table r tables.now) out.new result }
{
    match r {
        Ok(Some(p)) => table_lines(out, at, table, p.of(tables)),
        Ok(None) | Err(_) => text::place(out, at),
    }
}
