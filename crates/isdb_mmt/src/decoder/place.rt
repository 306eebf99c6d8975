// Places of one size, one behind the other, each with a name of 4 bytes at its start: a packet id or a section's key. And
// areas, of which each place has one.
ghost use Rattle.std.specs.Prelude.{◌≡◌, ◌+◌, ◌*◌, ◌<◌, ◌≤◌, min, length};
ghost use Rattle.std.specs.Slice.Iter.{chunks_exact_rest, chunks_exact_size};
ghost use Rattle.isdb_tlv.specs.Bytes.{be, put_be};
ghost use Rattle.isdb_mmt.specs.Memory.Lent.{part, over, flag as flag_at, names_from, among, distinct, cell_of, among_marked, found_from, place_for_name};
ghost use Rattle.isdb_mmt.specs.Memory.Octets.{Octets};

use isdb_tlv::bytes;
use std::slice::ChunksExact;

// By name, not From: what is read is a byte of a buffer.
pub(crate) fn flag(p: &[u8], at: usize) -> bool
    ensures { result ≡ flag_at p.now at }
{
    bytes::get_u8(p, at) != 0
}

// Where a name has its place, or takes the next free one, or that none is free.
#[derive(Clone, Copy)]
pub(crate) enum PlaceFor {
    Own(usize),
    Free(usize),
    NoneFree,
}

// The n places from at on, one after the other.
pub(crate) fn places(s: &[u8], at: usize, size: usize, n: usize) -> ChunksExact<'_, u8>
    requires { (0 < size) × (at + n * size ≤ length s.now) }
    ensures { (chunks_exact_rest result ≡ part at (n * size) s.now) × (chunks_exact_size result ≡ size) }
{
    let end = at + n * size;
    s[at..end].chunks_exact(size)
}

// The first of n places from at on that has the name x.
pub(crate) fn find(s: &[u8], at: usize, size: usize, n: usize, x: u32) -> Option<usize>
    requires { (4 ≤ size) × (at + n * size ≤ length s.now) }
    ensures { result ≡ found_from 0 (names_from n size at s.now) x }
{
    places(s, at, size, n).position(|p| word(p, 0) == x)
}

#[tactic(auto, using(crate::proofs::Names::place_for_old, crate::proofs::Names::place_for_new, crate::proofs::Names::place_for_full))]
pub(crate) fn place_for(
    s: &[u8],
    at: usize,
    size: usize,
    n: usize,
    limit: usize,
    x: u32,
) -> PlaceFor
    requires { (4 ≤ size) × (at + n * size ≤ length s.now) }
    ensures { result ≡ place_for_name (names_from n size at s.now) limit x }
{
    match find(s, at, size, n, x) {
        Some(i) => PlaceFor::Own(i),
        None if n < limit => PlaceFor::Free(n),
        None => PlaceFor::NoneFree,
    }
}

// Where a name is marked. Any number below 32,768 would do; this one spreads ids that follow one another and keys that differ
// in a few bits.
#[tactic(auto, unfolding(crate::specs::Memory::Lent::cell_of))]
fn cell(x: u32) -> u32
    ensures { (result ≡ cell_of x) × (result < 32768) }
{
    (x as u64 * 2654435769 / 16777216 % 32768) as u32
}

// The number in the 4 bytes from p on. They are there, so that they are read without a test.
#[tactic(auto, using(crate::proofs::Lent::word_read))]
pub(crate) fn word(s: &[u8], p: usize) -> u32
    requires { p + 4 ≤ length s.now }
    ensures { result ≡ be 4 s.now p }
{
    let end = p + 4;
    bytes::get_u32(&s[p..end], 0)
}

// A number stored there, likewise.
#[tactic(auto, using(crate::proofs::Stored::long_put))]
pub(crate) fn put_long(s: &mut [u8], p: usize, v: u64)
    requires { p + 8 ≤ length s.old }
    ensures { s.new ≡ put_be 8 p v s.old }
{
    let end = p + 8;
    bytes::put_u64(&mut s[p..end], 0, v);
}

// The number in 8 bytes that are there: a balanced sum, which the compiler makes one load of wherever it stands.
#[tactic(auto, unfolding(isdb_tlv::specs::Bytes::be))]
pub(crate) fn long(s: &[u8], p: usize) -> u64
    requires { p + 8 ≤ length s.now }
    ensures { result ≡ be 8 s.now p }
{
    ((u64::from(s[p]) * 72057594037927936 + u64::from(s[p + 1]) * 281474976710656)
        + (u64::from(s[p + 2]) * 1099511627776 + u64::from(s[p + 3]) * 4294967296))
        + ((u64::from(s[p + 4]) * 16777216 + u64::from(s[p + 5]) * 65536)
            + (u64::from(s[p + 6]) * 256 + u64::from(s[p + 7])))
}

// Whether x is one of n names.
fn has_name(s: &[u8], at: usize, size: usize, n: usize, x: u32) -> bool
    requires { (4 ≤ size) × (at + n * size ≤ length s.now) }
    ensures { result ≡ among x (names_from n size at s.now) }
{
    places(s, at, size, n).any(|p| word(p, 0) == x)
}

// An unmarked name is none of them.
fn is_among(s: &[u8], at: usize, size: usize, n: usize, x: u32, mark: u64) -> bool
    requires { (4 ≤ size) × (at + n * size ≤ length s.now) }
    ensures { result ≡ among_marked mark x (names_from n size at s.now) }
{
    mark != 0 && has_name(s, at, size, n, x)
}

// Whether no name stands twice. A name is compared with the earlier ones only where its cell is marked; marks that are there
// before do not matter.
fn no_name_twice(s: &[u8], at: usize, size: usize, n: usize, marks: &mut [u64]) -> bool
    requires { (4 ≤ size) × ((at + n * size ≤ length s.now) × (length marks.old ≡ 512)) }
    ensures { result ≡ distinct (names_from n size at s.now) }
{
    for i in 0..n {
        let x = word(s, at + i * size);
        let c = cell(x);
        let k = (c / 64) as usize;
        let b = (c % 64) as u8;
        let w = marks[k];
        if is_among(s, at, size, i, x, (w >> b) % 2) {
            return false;
        }
        marks[k] = bytes::with_bit(w, b);
    }
    true
}

fn marked_apart(s: &[u8], at: usize, size: usize, n: usize) -> bool
    requires { (4 ≤ size) × (at + n * size ≤ length s.now) }
    ensures { result ≡ distinct (names_from n size at s.now) }
{
    let mut marks = [0u64; 512];
    no_name_twice(s, at, size, n, &mut marks)
}

// The same of a few names, with 64 marks in one number.
fn few_apart(s: &[u8], at: usize, size: usize, n: usize) -> bool
    requires { (4 ≤ size) × (at + n * size ≤ length s.now) }
    ensures { result ≡ distinct (names_from n size at s.now) }
{
    let mut marks = 0u64;
    for i in 0..n {
        let x = word(s, at + i * size);
        let b = (cell(x) % 64) as u8;
        if is_among(s, at, size, i, x, (marks >> b) % 2) {
            return false;
        }
        marks = bytes::with_bit(marks, b);
    }
    true
}

// Whether no name stands twice. For a few names no 512 words of marks are cleared.
#[tactic(auto, using(crate::proofs::Names::short_apart))]
pub(crate) fn names_apart(s: &[u8], at: usize, size: usize, n: usize) -> bool
    requires { (4 ≤ size) × (at + n * size ≤ length s.now) }
    ensures { result ≡ distinct (names_from n size at s.now) }
{
    match n {
        0 | 1 => true,
        2..=16 => few_apart(s, at, size, n),
        _ => marked_apart(s, at, size, n),
    }
}

// The n bytes from the start of area i.
pub(crate) fn in_area(s: &[u8], i: usize, area: usize, n: usize) -> &[u8]
    requires { (i + 1) * area ≤ length s.now }
    ensures { result.now ≡ part (i * area) n s.now }
{
    bytes::part(s, i * area, n)
}

// So many bytes are copied at once.
const BLOCK: usize = 4096;

// By way of an array that nothing else shares. The compiler knows then that neither copy overlaps, makes them one call of memmove, and
// leaves the array out; of a copy from slice to slice it does not know that.
#[tactic(auto, using(crate::proofs::Lent::lent_at))]
fn put_block(s: &mut [u8], at: usize, b: &[u8])
    requires { (length b.now ≤ 4096) × (at + length b.now ≤ length s.old) }
    ensures { s.new ≡ over at b.now s.old }
{
    let n = b.len();
    let end = at + n;
    let mut block = [0u8; BLOCK];
    let part = &mut block[..n];
    part.copy_from_slice(b);
    s[at..end].copy_from_slice(part);
}

// Some bytes, from a place on.
pub(crate) fn put_bytes(s: &mut [u8], at: usize, b: &[u8])
    requires { at + length b.now ≤ length s.old }
    ensures { s.new ≡ over at b.now s.old }
{
    let mut to = at;
    for p in b.chunks(BLOCK) {
        put_block(s, to, p);
        to += p.len();
    }
}

// Some bytes, from a place of area i on.
pub(crate) fn put_in_area(s: &mut [u8], i: usize, area: usize, from: usize, b: &[u8])
    requires { i * area + from + length b.now ≤ length s.old }
    ensures { s.new ≡ over (i * area + from) b.now s.old }
{
    put_bytes(s, i * area + from, b);
}

// Every element of lent memory is a byte, which a definition over lists of numbers does not know.
pub(crate) fn octets(s: &[u8])
    ensures { Octets s.now }
{
    bytes::get_u8(s, 0);
}
