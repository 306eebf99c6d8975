// Text in lent bytes. A writer puts its text at a place and answers the place behind it; what does not fit is left out, and
// the place is then one more than the length.
ghost use Rattle.std.specs.Prelude.{◌≡◌, ◌+◌, ◌<◌, [], ◌∷◌};
ghost use Rattle.isdb_text.specs.Text.{Wrote, digit, decimal_of, hex_of, pairs_of, bytes_as_hex};
ghost use Rattle.isdb_text.specs.Text.{hex_digit as hex_digit_of};

// The place itself, where nothing is written.
pub fn place(out: &[u8], at: usize) -> usize
    ensures { Wrote out.now at [] out.now result }
{
    at.min(out.len() + 1)
}

// One byte.
pub fn put_byte(out: &mut [u8], at: usize, x: u8) -> usize
    ensures { Wrote out.old at (x ∷ []) out.new result }
{
    if at < out.len() {
        out[at] = x;
        at + 1
    } else {
        out.len() + 1
    }
}

// A text as it stands.
pub fn put(out: &mut [u8], at: usize, text: &[u8]) -> usize
    ensures { Wrote out.old at text.now out.new result }
{
    let mut p = place(out, at);
    for &x in text {
        p = put_byte(out, p, x);
    }
    p
}

// The code of a digit below 16.
fn digit_code(d: u8) -> u8
    requires { d < 16 }
    ensures { result ≡ digit d }
{
    if d < 10 { b'0' + d } else { b'a' - 10 + d }
}

// A number in decimal.
pub fn decimal(out: &mut [u8], at: usize, n: u64) -> usize
    ensures { Wrote out.old at (decimal_of n) out.new result }
{
    if n < 10 {
        put_byte(out, at, digit_code(n as u8))
    } else {
        let p = decimal(out, at, n / 10);
        put_byte(out, p, digit_code((n % 10) as u8))
    }
}

// The hexadecimal digit of a number with k places behind it.
#[tactic(auto, using(crate::proofs::Spelling::hex_shift, crate::proofs::Spelling::hex_front))]
pub fn hex_digit(n: u64, k: usize) -> u8
    ensures { result ≡ hex_digit_of n k }
{
    if k < 16 {
        digit_code(((n >> (k * 4)) % 16) as u8)
    } else {
        b'0'
    }
}

// The last digits of a number in hexadecimal, so many.
pub fn hex_digits(out: &mut [u8], at: usize, n: u64, digits: usize) -> usize
    ensures { Wrote out.old at (hex_of digits n) out.new result }
{
    let mut p = place(out, at);
    for k in (0..digits).rev() {
        p = put_byte(out, p, hex_digit(n, k));
    }
    p
}

fn pairs(out: &mut [u8], at: usize, bytes: &[u8]) -> usize
    ensures { Wrote out.old at (pairs_of bytes.now) out.new result }
{
    let mut p = place(out, at);
    for &x in bytes {
        p = hex_digits(out, p, u64::from(x), 2);
    }
    p
}

// Bytes, two digits each; a dash where there are none.
#[tactic(auto, unfolding(crate::specs::Text::bytes_as_hex))]
pub fn hex(out: &mut [u8], at: usize, bytes: &[u8]) -> usize
    ensures { Wrote out.old at (bytes_as_hex bytes.now) out.new result }
{
    if bytes.is_empty() {
        put_byte(out, at, b'-')
    } else {
        pairs(out, at, bytes)
    }
}
