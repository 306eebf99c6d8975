// Numbers in bytes, the high byte first. A byte beyond the end reads as 0 and is not written, so every public function
// here is total; where the caller has tested the length, the test here falls away once it is inlined.
ghost use Rattle.std.specs.Prelude.{◌≡◌, ◌+◌, ◌%◌, ◌^◌, ◌≤◌, ◌<◌, length, get_or, set, take, drop};
ghost use Rattle.isdb_tlv.specs.Bytes.{be, put_be, with_bit_of};
ghost use Rattle.isdb_tlv.specs.Fields.{puts, four_fields};

// The byte i places behind at. The sum at + i may be too large for a number.
fn byte(b: &[u8], at: usize, i: usize) -> u8
    ensures { result ≡ get_or b.now (at + i) 0 }
{
    if at < b.len() {
        if i < b.len() - at {
            return b[at + i];
        }
    }
    0
}

// Fewer bytes than W, and zeros behind them.
#[cold]
#[tactic(auto, using(crate::proofs::Numbers::be_padded))]
fn padded<const W: usize>(b: &[u8]) -> [u8; W]
    requires { length b.now ≤ W }
    ensures { be W result 0 ≡ be W b.now 0 }
{
    let mut a = [0; W];
    a[..b.len()].copy_from_slice(b);
    a
}

// The W bytes from at; one beyond the end is 0.
fn bytes_at<const W: usize>(b: &[u8], at: usize) -> [u8; W]
    ensures { be W result 0 ≡ be W b.now at }
{
    let r = rest(b, at);
    match r.first_chunk() {
        Some(all) => *all,
        None => padded(r),
    }
}

// The number in the w bytes from at; of one above 64 bits, the low 64.
#[tactic(auto, unfolding(crate::specs::Bytes::be))]
pub fn number(b: &[u8], at: usize, w: u8) -> u64
    ensures { result ≡ be w b.now at % 2 ^ 64 }
{
    let mut a: u64 = 0;
    for i in 0..w {
        a = (a << 8) + u64::from(byte(b, at, usize::from(i)));
    }
    a
}

#[tactic(auto, unfolding(crate::specs::Bytes::be))]
pub fn get_u8(b: &[u8], at: usize) -> u8
    ensures { result ≡ be 1 b.now at }
{
    byte(b, at, 0)
}

#[tactic(auto, unfolding(crate::specs::Bytes::be))]
pub fn get_u16(b: &[u8], at: usize) -> u16
    ensures { result ≡ be 2 b.now at }
{
    u16::from_be_bytes(bytes_at(b, at))
}

// The low 12 bits of two bytes, as the lengths of sections have them.
pub fn get_u12(b: &[u8], at: usize) -> u16
    ensures { result ≡ be 2 b.now at % 4096 }
{
    get_u16(b, at) % 4096
}

#[tactic(auto, unfolding(crate::specs::Bytes::be))]
pub fn get_u32(b: &[u8], at: usize) -> u32
    ensures { result ≡ be 4 b.now at }
{
    u32::from_be_bytes(bytes_at(b, at))
}

#[tactic(auto, unfolding(crate::specs::Bytes::be))]
pub fn get_u64(b: &[u8], at: usize) -> u64
    ensures { result ≡ be 8 b.now at }
{
    u64::from_be_bytes(bytes_at(b, at))
}

fn put_byte(s: &mut [u8], at: usize, i: usize, x: u8)
    ensures { s.new ≡ set s.old (at + i) x }
{
    if at < s.len() {
        if i < s.len() - at {
            s[at + i] = x;
        }
    }
}

// The bytes v from at on; what would lie beyond the end is left out.
fn put_bytes<const W: usize>(s: &mut [u8], at: usize, v: [u8; W])
    ensures { s.new ≡ put_be W at (be W v.entry 0) s.old }
{
    if at < s.len() {
        let n = s.len() - at;
        if W <= n {
            s[at..at + W].copy_from_slice(&v);
        } else {
            s[at..].copy_from_slice(&v[..n]);
        }
    }
}

// The low w bytes of v from at.
#[tactic(auto, unfolding(crate::specs::Bytes::put_be))]
pub fn put_number(s: &mut [u8], at: usize, w: u8, v: u64)
    ensures { s.new ≡ put_be w at v s.old }
{
    let mut u = v;
    for k in (0..w).rev() {
        put_byte(s, at, usize::from(k), (u % 256) as u8);
        u /= 256;
    }
}

#[tactic(auto, unfolding(crate::specs::Bytes::put_be))]
pub fn put_u8(s: &mut [u8], at: usize, v: u8)
    ensures { s.new ≡ put_be 1 at v s.old }
{
    put_byte(s, at, 0, v);
}

#[tactic(auto, unfolding(crate::specs::Bytes::be))]
pub fn put_u16(s: &mut [u8], at: usize, v: u16)
    ensures { s.new ≡ put_be 2 at v s.old }
{
    put_bytes::<2>(s, at, v.to_be_bytes());
}

#[tactic(auto, unfolding(crate::specs::Bytes::be))]
pub fn put_u32(s: &mut [u8], at: usize, v: u32)
    ensures { s.new ≡ put_be 4 at v s.old }
{
    put_bytes::<4>(s, at, v.to_be_bytes());
}

#[tactic(auto, unfolding(crate::specs::Bytes::be))]
pub fn put_u64(s: &mut [u8], at: usize, v: u64)
    ensures { s.new ≡ put_be 8 at v s.old }
{
    put_bytes::<8>(s, at, v.to_be_bytes());
}

// A word with bit i set; of i the low 6 bits count.
#[tactic(auto, unfolding(crate::specs::Bytes::with_bit_of))]
pub fn with_bit(w: u64, i: u8) -> u64
    ensures { result ≡ with_bit_of w (i % 64) }
{
    w | (1u64 << (i % 64))
}

// Everything from at on.
pub fn rest(b: &[u8], at: usize) -> &[u8]
    ensures { result.now ≡ drop at b.now }
{
    let n = b.len();
    if at <= n {
        return &b[at..];
    }
    &b[n..]
}

// The n bytes from at, or as many of them as there are.
pub fn part(b: &[u8], at: usize, n: usize) -> &[u8]
    ensures { result.now ≡ take n (drop at b.now) }
{
    let r = rest(b, at);
    if n <= r.len() {
        return &r[..n];
    }
    r
}

// The low w bytes of v from at, where the widths that numbers have are one store each: by a match, since each width has its own type.
#[tactic(auto, using(crate::proofs::Fields::put_cut))]
fn put_field(s: &mut [u8], at: usize, w: u8, v: u64)
    ensures { s.new ≡ put_be w at v s.old }
{
    match w {
        1 => put_u8(s, at, (v % 256) as u8),
        2 => put_u16(s, at, (v % 65536) as u16),
        4 => put_u32(s, at, (v % 4294967296) as u32),
        8 => put_u64(s, at, v),
        _ => put_number(s, at, w, v),
    }
}

// So from i places behind at. The sum at + i may be too large for a number.
#[tactic(auto, using(crate::proofs::Fields::put_beyond))]
fn put_behind(s: &mut [u8], at: usize, i: usize, w: u8, v: u64)
    ensures { s.new ≡ put_be w (at + i) v s.old }
{
    if at < s.len() {
        if i < s.len() - at {
            put_field(s, at + i, w, v);
        }
    }
}

// Four fields one behind the other from at on. Their widths are the hexadecimal digits of w; a field of no bytes is none.
pub fn put4(s: &mut [u8], at: usize, w: u16, v0: u64, v1: u64, v2: u64, v3: u64)
    ensures { s.new ≡ puts at (four_fields w v0 v1 v2 v3) s.old }
{
    let w0 = (w / 4096 % 16) as u8;
    let w1 = (w / 256 % 16) as u8;
    let w2 = (w / 16 % 16) as u8;
    let w3 = (w % 16) as u8;
    let i = w0 as usize;
    let j = i + w1 as usize;
    let k = j + w2 as usize;
    put_behind(s, at, 0, w0, v0);
    put_behind(s, at, i, w1, v1);
    put_behind(s, at, j, w2, v2);
    put_behind(s, at, k, w3, v3);
}
