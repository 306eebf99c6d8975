// Lines by templates. In a template `#` stands for the next value in decimal; a run of `%` for the next value in hexadecimal
// with as many digits; `?` for the next two, `none` where the first is 0 and else the second in decimal. All other bytes
// stand for themselves.
ghost use Rattle.std.specs.Prelude.{◌≡◌};
ghost use Rattle.isdb_text.specs.Text.{Wrote};
ghost use Rattle.isdb_text.specs.Fill.{filled, optional_of};
ghost use Rattle.isdb_text.specs.Fill.{places as places_of, spelled as spelled_of, taken as taken_of};

use crate::text;
use isdb_mmt::maybe::number_at;

// How many % a template begins with.
#[tactic(auto, unfolding(crate::specs::Fill::places))]
fn places(template: &[u8]) -> usize
    ensures { result ≡ places_of template.now }
{
    template.iter().take_while(|&&c| c == b'%').count()
}

// A number, or that there is none.
pub fn optional(out: &mut [u8], at: usize, given: u64, n: u64) -> usize
    ensures { Wrote out.old at (optional_of given n) out.new result }
{
    if given == 0 {
        text::put(out, at, b"none")
    } else {
        text::decimal(out, at, n)
    }
}

// What one byte of a template stands for.
#[tactic(auto, unfolding(crate::specs::Fill::spelled))]
fn spelled(out: &mut [u8], at: usize, c: u8, k: usize, a: u64, b: u64) -> usize
    ensures { Wrote out.old at (spelled_of c k a b) out.new result }
{
    match c {
        b'#' => text::decimal(out, at, a),
        b'?' => optional(out, at, a, b),
        b'%' => text::put_byte(out, at, text::hex_digit(a, k)),
        _ => text::put_byte(out, at, c),
    }
}

// How many values it uses up.
#[tactic(auto, unfolding(crate::specs::Fill::taken))]
fn taken(c: u8, k: usize) -> usize
    ensures { result ≡ taken_of c k }
{
    match c {
        b'#' => 1,
        b'?' => 2,
        b'%' if k == 0 => 1,
        _ => 0,
    }
}

// A template with its values.
pub fn fill(out: &mut [u8], at: usize, template: &[u8], values: &[u64]) -> usize
    ensures { Wrote out.old at (filled template.now values.now) out.new result }
{
    let mut p = text::place(out, at);
    let mut v = 0;
    for (i, &c) in template.iter().enumerate() {
        let k = places(&template[i + 1..]);
        p = spelled(out, p, c, k, number_at(values, v), number_at(values, v + 1));
        v += taken(c, k);
    }
    p
}
