// Units of an MPU payload, tables of a control payload, and what is lost between two packet numbers.
use crate::print::{Hex, field};
use crate::walk::Walk;
use isdb_mmt::message::{Content, Division, Fragment};
use isdb_mmt::mpu::{FragmentType, PayloadHeader, Unit};
use isdb_mmt::walk_step::WalkStep;
use isdb_mmt::{message, mpu};
use isdb_tlv::bytes;
use std::io;

pub fn lost(rt: &impl Print, old: u32, new: u32) -> io::Result<()> {
    if mpu::follows_on(old, new) {
        return field(rt, "lost", 0u32);
    }
    field(rt, "lost", mpu::lost(old, new))
}

pub fn payload(rt: &impl Print, b: &[u8]) -> io::Result<()> {
    let Some(h) = mpu::parse_header(b) else {
        return print!(rt; " none");
    };
    header(rt, h)?;
    match h.fragment_type {
        FragmentType::Mfu => units(rt, mpu::declared(b), h.timed, h.aggregated),
        _ => field(rt, "units", 0u32),
    }
}

fn header(rt: &impl Print, h: PayloadHeader) -> io::Result<()> {
    field(rt, "type", u8::from(h.fragment_type))?;
    field(rt, "timed", h.timed as u8)?;
    field(rt, "fragmentation", u8::from(h.fragmentation))?;
    field(rt, "aggregated", h.aggregated as u8)?;
    field(rt, "counter", h.fragment_counter)?;
    field(rt, "mpu", h.mpu_sequence_number)
}

fn units(rt: &impl Print, q: &[u8], timed: bool, aggregated: bool) -> io::Result<()> {
    let Some(n) = mpu::count_units(q, timed, aggregated) else {
        return print!(rt; " malformed");
    };
    field(rt, "units", n)?;
    let step = |at| match mpu::next_unit(q, timed, aggregated, at) {
        WalkStep::Entry(u, next) => Some((u, next)),
        _ => None,
    };
    for u in Walk::new(8, n, step) {
        unit(rt, u, q)?;
    }
    Ok(())
}

fn unit(rt: &impl Print, u: Unit, q: &[u8]) -> io::Result<()> {
    print!(rt; "\n  unit")?;
    match (u.mfu, u.item_id) {
        (Some(h), _) => {
            field(rt, "movie_fragment", h.movie_fragment_sequence_number)?;
            field(rt, "sample", h.sample_number)?;
            field(rt, "offset", h.offset)?;
            field(rt, "priority", h.priority)?;
            field(rt, "dependency", h.dependency_counter)?;
        }
        (None, Some(n)) => field(rt, "item", n)?,
        (None, None) => print!(rt; " plain")?,
    }
    field(rt, "data", Hex(u.data.of(q)))
}

// The tables of an undivided payload, and how many messages and tables do not fit; of a divided one which part it is.
pub fn control(rt: &impl Print, b: &[u8]) -> io::Result<()> {
    if b.len() < 2 {
        return print!(rt; " malformed 1");
    }
    let f = Fragment::from(b[0]);
    match f.division {
        Division::Undivided => {
            let bad = messages(rt, bytes::rest(b, 2), f.long_length, f.aggregated)?;
            print!(rt; "\n  malformed {bad}")
        }
        Division::First => print!(rt; " first"),
        Division::Middle => print!(rt; " middle"),
        Division::Last => print!(rt; " last"),
    }
}

fn messages(rt: &impl Print, b: &[u8], long: bool, aggregated: bool) -> io::Result<u64> {
    if !aggregated {
        return content(rt, b);
    }
    let mut bad: u64 = 0;
    let mut at = 0;
    for _ in 0..b.len() {
        match message::next_message(b, long, at) {
            WalkStep::Entry(p, next) => {
                bad = bad.wrapping_add(content(rt, p.of(b))?);
                at = next;
            }
            WalkStep::End => return Ok(bad),
            WalkStep::Malformed => return Ok(bad.wrapping_add(1)),
        }
    }
    Ok(bad)
}

fn content(rt: &impl Print, m: &[u8]) -> io::Result<u64> {
    match message::content_of(m) {
        Content::Malformed => Ok(1),
        Content::Nothing => Ok(0),
        Content::Table(p) => {
            table(rt, p.of(m))?;
            Ok(0)
        }
        Content::Tables { body, at } => tables(rt, body.of(m), at),
    }
}

fn tables(rt: &impl Print, b: &[u8], from: usize) -> io::Result<u64> {
    let mut at = from;
    for _ in 0..b.len() {
        match message::next_table(b, at) {
            WalkStep::Entry(p, next) => {
                table(rt, p.of(b))?;
                at = next;
            }
            WalkStep::End => return Ok(0),
            WalkStep::Malformed => return Ok(1),
        }
    }
    Ok(0)
}

fn table(rt: &impl Print, b: &[u8]) -> io::Result<()> {
    print!(rt; "\n ")?;
    field(rt, "table", Hex(b))
}
