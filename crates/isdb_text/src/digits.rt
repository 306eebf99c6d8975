// Bytes out of hexadecimal text: two digits each, upper or lower case.
ghost use Rattle.std.specs.Prelude.{◌≡◌, length};
ghost use Rattle.isdb_text.specs.Text.{Wrote};
ghost use Rattle.isdb_text.specs.Digits.{value_of, byte_of, bytes_in, foreign_of, decoded_of, decoded_into};

use crate::text;

// Why nothing is made of a text.
#[derive(Clone, Copy, Debug, PartialEq, Eq)]
pub enum DecodeError {
    // The letter with this index is no digit.
    Foreign(usize),
    // A digit is left over.
    Odd,
    // More bytes than there is room for.
    TooLong,
}

// The value of a digit; 16 for any other letter.
#[tactic(auto, unfolding(crate::specs::Digits::value_of, crate::specs::Digits::letter_of))]
pub fn value(x: u8) -> u8
    ensures { result ≡ value_of x }
{
    char::from(x).to_digit(16).unwrap_or(16) as u8
}

// The index of the first letter that is no digit, or the length.
#[tactic(auto, unfolding(crate::specs::Digits::foreign_of))]
pub fn first_foreign(text: &[u8]) -> usize
    ensures { result ≡ foreign_of text.now }
{
    text.iter().take_while(|&&x| value(x) < 16).count()
}

// The byte of two digits' values.
fn byte_of(high: u8, low: u8) -> u8
    ensures { result ≡ byte_of high low }
{
    high.wrapping_mul(16).wrapping_add(low)
}

fn pairs(out: &mut [u8], text: &[u8]) -> usize
    ensures { Wrote out.old 0 (bytes_in text.now) out.new result }
{
    let mut p = text::place(out, 0);
    for pair in text.chunks_exact(2) {
        p = text::put_byte(out, p, byte_of(value(pair[0]), value(pair[1])));
    }
    p
}

// The bytes of a text, at the start of out, and how many.
#[tactic(auto, using(crate::proofs::DigitValues::length_bytes), unfolding(crate::specs::Digits::decoded_of, crate::specs::Digits::decoded_into))]
pub fn decode(out: &mut [u8], text: &[u8]) -> Result<usize, DecodeError>
    ensures value { result ≡ decoded_of (length out.old) text.now }
    ensures out_after { out.new ≡ decoded_into out.old text.now }
{
    let f = first_foreign(text);
    if f < text.len() {
        return Err(DecodeError::Foreign(f));
    }
    if text.len() % 2 != 0 {
        return Err(DecodeError::Odd);
    }
    if out.len() < text.len() / 2 {
        return Err(DecodeError::TooLong);
    }
    Ok(pairs(out, text))
}
