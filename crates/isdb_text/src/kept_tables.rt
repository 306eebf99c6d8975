// The kept tables of a session one after the other, and the orders in which the programs write them.
ghost use Rattle.std.specs.Prelude.{◌≡◌};
ghost use Rattle.isdb_mmt.specs.Memory.Lending.{lent_by};
ghost use Rattle.isdb_mmt.specs.Answers.Readings.{next_control_read, next_key_read};
ghost use Rattle.isdb_text.specs.KeptTables.{mpts_above, sections_above, mpt_step, section_step, kept_step, dump_order, replay_order};

use isdb_mmt::decoder::refusal::Refusal;
use isdb_mmt::decoder::session::Session;
use isdb_mmt::part::Part;

// Which table: the MPT of a control id, the section of a key, or one that stands by itself.
#[derive(Clone, Copy)]
pub enum Table {
    Mpt(u32),
    Plt,
    Section(u32),
    Tot,
}

// What a walk has before it: the MPTs of the control ids from a number on, the sections with keys from first to last, or one table.
#[derive(Clone, Copy)]
pub enum Ahead {
    Nothing,
    Mpts(u32),
    Plt,
    Sections { first: u32, last: u32 },
    Tot,
}

// A table of a walk with what is read of it, and what lies before the walk then.
#[derive(Clone, Copy)]
pub struct Kept {
    pub table: Table,
    pub reading: Result<Option<Part>, Refusal>,
    pub next: Ahead,
}

fn mpts_above(id: u32) -> Ahead
    ensures { result ≡ mpts_above id }
{
    if id < 4294967295 {
        Ahead::Mpts(id + 1)
    } else {
        Ahead::Nothing
    }
}

fn sections_above(key: u32, last: u32) -> Ahead
    ensures { result ≡ sections_above key last }
{
    if key < last {
        Ahead::Sections {
            first: key + 1,
            last,
        }
    } else {
        Ahead::Nothing
    }
}

// Control ids ascend.
fn next_mpt(session: Session<'_>, from: u32) -> Option<Kept>
    ensures { result ≡ mpt_step (lent_by session.entry) (next_control_read (lent_by session.entry) from) }
{
    match session.next_control(from) {
        Ok(Some(id)) => Some(Kept {
            table: Table::Mpt(id),
            reading: session.mpt(id),
            next: mpts_above(id),
        }),
        Ok(None) | Err(_) => None,
    }
}

// Keys ascend.
fn next_section(session: Session<'_>, first: u32, last: u32) -> Option<Kept>
    ensures { result ≡ section_step (lent_by session.entry) last (next_key_read (lent_by session.entry) first last) }
{
    match session.next_key(first, last) {
        Ok(Some(key)) => Some(Kept {
            table: Table::Section(key),
            reading: session.section(key),
            next: sections_above(key, last),
        }),
        Ok(None) | Err(_) => None,
    }
}

// The next table of those that a walk has before it.
#[tactic(auto, unfolding(crate::specs::KeptTables::kept_step))]
pub fn next(session: Session<'_>, ahead: Ahead) -> Option<Kept>
    ensures { result ≡ kept_step (lent_by session.entry) ahead }
{
    match ahead {
        Ahead::Nothing => None,
        Ahead::Mpts(from) => next_mpt(session, from),
        Ahead::Plt => Some(Kept {
            table: Table::Plt,
            reading: session.plt(),
            next: Ahead::Nothing,
        }),
        Ahead::Sections { first, last } => { next_section(session, first, last) }
        Ahead::Tot => Some(Kept {
            table: Table::Tot,
            reading: session.tot(),
            next: Ahead::Nothing,
        }),
    }
}

// The order in which `feeddump` writes them, walk by walk from 0 on: MPTs, PLT, EITs, SDTs, BITs, NITs, AMTs, TOT. A match: a walk behind
// the last has nothing before it.
#[tactic(auto, unfolding(crate::specs::KeptTables::dump_order))]
pub fn dump_order(i: u8) -> Ahead
    ensures { result ≡ dump_order i }
{
    match i {
        0 => Ahead::Mpts(0),
        1 => Ahead::Plt,
        2 => Ahead::Sections {
            first: 0x8B000000,
            last: 0x9BFFFFFF,
        },
        3 => Ahead::Sections {
            first: 0x9F000000,
            last: 0xA0FFFFFF,
        },
        4 => Ahead::Sections {
            first: 0x9D000000,
            last: 0x9DFFFFFF,
        },
        5 => Ahead::Sections {
            first: 0x40000000,
            last: 0x41FFFFFF,
        },
        6 => Ahead::Sections {
            first: 0xFE000000,
            last: 0xFEFFFFFF,
        },
        7 => Ahead::Tot,
        _ => Ahead::Nothing,
    }
}

// The order of `replay`: MPTs, PLT, TOT, all sections. A match, as there.
#[tactic(auto, unfolding(crate::specs::KeptTables::replay_order))]
pub fn replay_order(i: u8) -> Ahead
    ensures { result ≡ replay_order i }
{
    match i {
        0 => Ahead::Mpts(0),
        1 => Ahead::Plt,
        2 => Ahead::Tot,
        3 => Ahead::Sections {
            first: 0,
            last: 0xFFFFFFFF,
        },
        _ => Ahead::Nothing,
    }
}
