// Input and output, as the programs use them. Of standard input and output no contract can say which bytes they give and take; what is said
// of the bytes here holds of readers that know theirs.
#![tactic(auto)]

ghost use Rattle.std.specs.Prelude.{◌≤◌, length, take, drop};
ghost use Rattle.std.specs.Io.KnownBytes.{Consumes};
ghost use Rattle.stdio.specs.Reading.{ReadBehind};
ghost use Rattle.stdio.specs.Writing.{WritesFront};

use isdb_tlv::bytes;
use std::io::{ErrorKind, Read, Write};

// Reads more into a window that holds n bytes, and answers how many it holds then: no more than before where it is full, where the input has
// ended, and where a read fails.
#[tactic(auto, using(crate::proofs::Reading::bytes_read))]
pub fn read_behind<R: Read>(input: &mut R, window: &mut [u8], n: usize) -> usize
    ensures window { ReadBehind window.old n window.new result }
    ensures bytes { Consumes (R.remaining input.old) (R.remaining input.new) (drop n (take result window.new)) }
{
    if window.len() <= n {
        return n;
    }
    match input.read(&mut window[n..]) {
        Ok(got) => n + got,
        Err(_) => n,
    }
}

// Reads until a window is full, the input has ended or a read fails, and answers how many bytes it holds.
#[tactic(auto, using(crate::proofs::Reading::consumed_on))]
pub fn read_full<R: Read>(input: &mut R, window: &mut [u8]) -> usize
    ensures bound { result ≤ length window.new }
    ensures bytes { Consumes (R.remaining input.old) (R.remaining input.new) (take result window.new) }
{
    let mut n: usize = 0;
    for _ in 0..window.len() {
        let m = read_behind(input, window, n);
        if m <= n {
            return n;
        }
        n = m;
    }
    n
}

// Writes a text, up to where a write fails.
#[tactic(auto, using(crate::proofs::Writing::nothing_yet, crate::proofs::Writing::written_on, crate::proofs::Writing::written_same, std::proofs::lemmas::List::take_rest))]
pub fn say<W: Write>(out: &mut W, text: &[u8])
    ensures { WritesFront (W.contents out.old) (W.contents out.new) text.now }
{
    let mut rest = text;
    for _ in 0..u64::MAX {
        if rest.is_empty() {
            return;
        }
        match out.write(rest) {
            Ok(0) => return,
            Ok(n) => rest = &rest[n..],
            Err(e) => {
                if e.kind() != ErrorKind::Interrupted {
                    return;
                }
            }
        }
    }
}

// Writes the text in front of a place.
pub fn write_text<W: Write>(out: &mut W, text: &[u8], at: usize)
    ensures { WritesFront (W.contents out.old) (W.contents out.new) (take at text.now) }
{
    say(out, bytes::part(text, 0, at));
}
