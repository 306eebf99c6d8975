// How an answer is written: each text of a format is a write of its own, a number and a character too, and bytes are one a byte. A write that
// fails is passed over, so where the output is full for a while, the words that find no room are lost and no others.
use isdb_text::text;
use isdb_tlv::bytes;
use isdb_tlv::ip::Address;
use std::fmt::{Display, Formatter, Write};
use std::{fmt, io};

// A space, a name and a space, a write each, and a value in its own.
pub fn field<T: Display + Drop>(rt: &impl Print, name: &str, value: T) -> io::Result<()> {
    print!(rt; " {name} {value}")
}

// Bytes, two digits each, in a write a byte; '-' for none. The hot part of a long answer, so without the array of a `HexNumber`.
#[derive(Clone, Copy)]
pub struct Hex<'a>(pub &'a [u8]);

impl Display for Hex<'_> {
    fn fmt<W: Write>(&self, f: &mut Formatter<W>) -> fmt::Result {
        if self.0.is_empty() {
            return f.write_str("-");
        }
        for x in self.0 {
            let n = *x as u64;
            write_digits(f, &[text::hex_digit(n, 1), text::hex_digit(n, 0)])?;
        }
        Ok(())
    }
}

// Digits in one write: they are text, so nothing is left out.
fn write_digits<W: Write>(f: &mut Formatter<W>, digits: &[u8]) -> fmt::Result {
    f.write_str(str::from_utf8(digits).unwrap_or(""))
}

// A number, and with how many hexadecimal digits it is written, of at most sixteen: in one write, where `{:08x}` makes another of the zeros in
// front.
#[derive(Clone, Copy)]
pub struct HexNumber(pub u64, pub usize);

impl Display for HexNumber {
    fn fmt<W: Write>(&self, f: &mut Formatter<W>) -> fmt::Result {
        let mut digits = [0u8; 16];
        let end = text::hex_digits(&mut digits, 0, self.0, self.1);
        write_digits(f, bytes::part(&digits, 0, end))
    }
}

// An address in hexadecimal digits; one of 128 bits in two writes.
#[derive(Clone, Copy)]
pub struct HexAddress(pub Address);

impl Display for HexAddress {
    fn fmt<W: Write>(&self, f: &mut Formatter<W>) -> fmt::Result {
        match self.0 {
            Address::V4(n) => HexNumber(n as u64, 8).fmt(f),
            Address::V6(high, low) => {
                HexNumber(high, 16).fmt(f)?;
                HexNumber(low, 16).fmt(f)
            }
        }
    }
}

// A value, or `none`.
#[derive(Drop)]
pub struct OrNone<T>(pub Option<T>);

impl<T: Display> Display for OrNone<T> {
    fn fmt<W: Write>(&self, f: &mut Formatter<W>) -> fmt::Result {
        match &self.0 {
            None => f.write_str("none"),
            Some(x) => write!(f, "{x}"),
        }
    }
}

// A printer that writes each piece of a format by itself and passes over a write that fails: what comes behind it is written, and no call
// answers an error.
#[derive(Clone, Copy)]
pub struct PassingOver<R>(pub R);

impl<R: Print + Copy> Write for PassingOver<R> {
    fn write_str(&mut self, s: &str) -> fmt::Result {
        let _ = self.write_all(s.as_bytes());
        Ok(())
    }
}

impl<R: Print + Copy> Print for PassingOver<R> {
    fn print<D: Display + Drop>(&self, value: D) -> io::Result<()> {
        let mut out = *self;
        let _ = out.write(value);
        Ok(())
    }

    fn println<D: Display + Drop>(&self, value: D) -> io::Result<()> {
        let mut out = *self;
        let _ = out.writeln(value);
        Ok(())
    }

    fn write_all(&self, bytes: &[u8]) -> io::Result<()> {
        let _ = self.0.write_all(bytes);
        Ok(())
    }
}
