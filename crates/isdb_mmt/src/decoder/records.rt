// MFU records in the output buffers: rows of 36 bytes, and their data one behind the other.
ghost use Rattle.std.specs.Prelude.{◌≡◌, ◌+◌, ◌*◌, ◌≤◌, length};
ghost use Rattle.isdb_tlv.specs.Fields.{written};
ghost use Rattle.isdb_mmt.specs.Memory.Lent.{over};
ghost use Rattle.isdb_mmt.specs.Pushes.Records.{row_size, record_flags, record_fields, row_fields, held_fields};
ghost use Rattle.isdb_mmt.specs.Pushes.Giving.{Outputs, Gave};
ghost use Rattle.isdb_mmt.specs.Pushes.MediaCommit.{accepted as accepted_as, OneFits, OnePut};
ghost use Rattle.isdb_mmt.specs.Pushes.Answer.{answered};

use crate::decoder::media::Object;
use crate::decoder::readings::HeldObject;
use crate::decoder::refusal::Refusal;
use crate::decoder::{place, reassembler};
use crate::mpu;
use crate::mpu::{MfuHeader, PayloadHeader};
use crate::walk_step::WalkStep;
use isdb_tlv::bytes;

pub(crate) const ROW_SIZE: usize = 36;

// How many records and data bytes a push hands out.
#[derive(Clone, Copy, Debug, PartialEq, Eq)]
pub struct HandedOut {
    pub records: u64,
    pub bytes: u64,
}

pub(crate) fn accepted(records: u64, bytes: u64) -> Result<HandedOut, Refusal>
    ensures { answered result ≡ accepted_as records bytes }
{
    Ok(HandedOut { records, bytes })
}

fn row_flags(rap: bool, scrambled: bool, timed: bool, item: bool) -> u64
    ensures { result ≡ record_flags rap scrambled timed item }
{
    u64::from(rap) + 2 * u64::from(scrambled) + 4 * u64::from(timed) + 8 * u64::from(item)
}

fn put_fields(
    p: &mut [u8],
    id: u64,
    flags: u64,
    mpu: u32,
    h: MfuHeader,
    item: u32,
    start: u32,
    n: u64,
)
    requires { length p.old ≡ row_size }
    ensures { p.new ≡ written (record_fields id flags mpu h item start n) }
{
    bytes::put4(p, 0, 0x2114, id, flags, 0, mpu as u64);
    bytes::put4(
        p,
        8,
        0x4441,
        h.movie_fragment_sequence_number as u64,
        h.sample_number as u64,
        h.offset as u64,
        h.priority as u64,
    );
    bytes::put4(
        p,
        21,
        0x1244,
        h.dependency_counter as u64,
        0,
        item as u64,
        start as u64,
    );
    bytes::put4(p, 32, 0x4000, n, 0, 0, 0);
}

// A row at a place of the rows; its data start at start.
#[tactic(auto, using(crate::proofs::Gives::row_sent))]
pub(crate) fn put_row(rows: &mut [u8], at: usize, id: u16, scrambled: bool, o: Object, start: u32)
    requires { at + row_size ≤ length rows.old }
    ensures { rows.new ≡ over at (written (row_fields id scrambled o start)) rows.old }
{
    let end = at + ROW_SIZE;
    let h = o.header;
    let flags = row_flags(o.rap, scrambled, o.timed, o.item);
    put_fields(
        &mut rows[at..end],
        id as u64,
        flags,
        o.mpu_sequence_number,
        h,
        o.item_id,
        start,
        o.length as u64,
    );
}

// The record of a held object as it would be delivered now.
#[tactic(auto, using(crate::proofs::Gives::held_put))]
pub fn held_row(row: &mut [u8; 36], id: u32, o: HeldObject)
    ensures { row.new ≡ written (held_fields id o) }
{
    let m = o.mfu;
    let i = o.item_id;
    let b = o.bytes;
    let flags = row_flags(o.rap, false, m.is_some(), i.is_some());
    put_fields(
        row,
        id as u64,
        flags,
        o.mpu_sequence_number,
        m.unwrap_or(mpu::NO_HEADER),
        i.unwrap_or(0),
        0,
        b.length as u64,
    );
}

// Whole units of a payload with the header x, each a record.
pub(crate) fn give_units(
    q: &[u8],
    x: PayloadHeader,
    id: u16,
    rap: bool,
    rows: &mut [u8],
    out: &mut [u8],
)
    requires { Outputs q.now x.timed x.aggregated id x.mpu_sequence_number rap rows.old out.old }
    ensures { Gave q.now x.timed x.aggregated id x.mpu_sequence_number rap rows.old out.old rows.new out.new }
{
    let mut at: usize = 8;
    let mut k: usize = 0;
    let mut d: usize = 0;
    // No iterator: of a step's three cases two end the walk, and where to go on is known once the unit is read.
    loop {
        match mpu::next_unit(q, x.timed, x.aggregated, at) {
            WalkStep::End => return,
            WalkStep::Malformed => return,
            WalkStep::Entry(u, next) => {
                let p = u.data;
                let b = p.of(q);
                let n = b.len();
                let m = x.mpu_sequence_number;
                let o = reassembler::unit_object(m, rap, u, n as u32);
                put_row(rows, k, id, false, o, d as u32);
                place::put_in_area(out, 0, 0, d, b);
                k += ROW_SIZE;
                d += n;
                at = next;
            }
        }
    }
}

// The only record of a packet, its data in two pieces.
pub(crate) fn put_record(
    rows: &mut [u8],
    out: &mut [u8],
    id: u16,
    scrambled: bool,
    o: Object,
    a: &[u8],
    b: &[u8],
)
    requires { OneFits a.now b.now rows.old out.old }
    ensures { OnePut id scrambled o a.now b.now rows.old out.old rows.new out.new }
{
    put_row(rows, 0, id, scrambled, o, 0);
    place::put_in_area(out, 0, 0, 0, a);
    place::put_in_area(out, 0, 0, a.len(), b);
}
