// Runs the readings of isdb_tlv and isdb_mmt on cases from standard input, a line each: a word that names the reading, a space, and
// bytes in hexadecimal, at most 65,536. It writes the line again, with what was found behind it, or with what is wrong with it.
#![tactic(auto)]

mod answer;
mod descriptors;
mod print;
mod tables;
mod units;
mod walk;

use isdb_text::digits;
use isdb_text::digits::DecodeError;
use print::{PassingOver, field};
use std::io;

fn main(rt: HostRuntime) {
    let mut buf = [0u8; 524288];
    let mut data = [0u8; 65536];
    // No write is said to have failed.
    let _ = answer_input(rt, &mut buf, &mut data);
}

// Answers the cases that standard input holds; input that fills the window may go on behind it.
fn answer_input(
    rt: HostRuntime,
    window: &mut [u8; 524288],
    data: &mut [u8; 65536],
) -> io::Result<()> {
    let n = stdio::read_full(&mut rt.stdin(), window);
    let out = PassingOver(rt);
    if n == 524288 {
        return out.write_all(
            b"# the input is too long: it must have fewer than 524288 bytes, and none of it is answered\n",
        );
    }
    for line in window[..n].split_inclusive(|x| *x == b'\n') {
        case(&out, line.strip_suffix(b"\n").unwrap_or(line), data)?;
    }
    Ok(())
}

// One case: an empty line, and one that starts with '#', is written as it stands. Its bytes are decoded into data, which is lent for all
// cases, since an array of its own would be cleared for each. What needs no format is written without.
fn case(rt: &impl Print, line: &[u8], data: &mut [u8; 65536]) -> io::Result<()> {
    let Some(first) = line.first() else {
        return rt.write_all(b"\n");
    };
    rt.write_all(line)?;
    if *first == b'#' {
        return rt.write_all(b"\n");
    }
    let mut parts = line.splitn(2, |x| *x == b' ');
    let word = parts.next().unwrap_or(line);
    let text = parts.next().unwrap_or(&[]);
    rt.write_all(b" ->")?;
    match digits::decode(data, text) {
        Ok(n) => answer::answer(rt, word, isdb_tlv::bytes::part(data, 0, n))?,
        Err(DecodeError::Foreign(at)) => field(rt, "error: no hexadecimal digit, at", at)?,
        Err(DecodeError::Odd) => rt.write_all(b" error: an odd number of digits")?,
        Err(DecodeError::TooLong) => rt.write_all(b" error: more than 65536 bytes")?,
    }
    rt.write_all(b"\n")
}
