// A call told in a line: its name, its status, the numbers that it was lent, and what else it was lent to
// write to.
use std::{fmt, io};

// What a number holds before a call. The calls are lent numbers, so one left alone shows only by what it
// held.
pub(crate) const LEFT: u64 = u64::MAX;

// Numbers, each behind a space, `-` for one that the call left alone.
#[derive(Clone, Copy)]
struct Numbers<'a>(&'a [u64]);

impl fmt::Display for Numbers<'_> {
    fn fmt<W: fmt::Write>(&self, f: &mut fmt::Formatter<W>) -> fmt::Result {
        for n in self.0 {
            match *n {
                LEFT => write!(f, " -")?,
                n => write!(f, " {n}")?,
            }
        }
        Ok(())
    }
}

// Bytes in hex. `cases` has another, which writes `-` for no bytes.
#[derive(Clone, Copy)]
struct Hex<'a>(&'a [u8]);

impl fmt::Display for Hex<'_> {
    fn fmt<W: fmt::Write>(&self, f: &mut fmt::Formatter<W>) -> fmt::Result {
        for byte in self.0 {
            write!(f, "{byte:02x}")?;
        }
        Ok(())
    }
}

// A call that answers by numbers alone. The files beside have a function for each call, though some differ in the call alone. One function
// that makes `[LEFT; N]` and takes the call as a closure was tried: that N numbers fit a slice was not proved for every N, and a bound of a
// closure may not name N.
pub(crate) fn tell(rt: &impl Print, name: &str, status: u64, out: &[u64]) -> io::Result<()> {
    println!(rt; "{name} {status}{}", Numbers(out))
}

// One that also writes bytes.
pub(crate) fn tell_bytes(
    rt: &impl Print,
    name: &str,
    status: u64,
    out: &[u64],
    bytes: &[u8],
) -> io::Result<()> {
    println!(rt; "{name} {status}{} {}", Numbers(out), Hex(bytes))
}

// One that also writes numbers.
pub(crate) fn tell_values(
    rt: &impl Print,
    name: &str,
    status: u64,
    out: &[u64],
    values: &[u64],
) -> io::Result<()> {
    println!(rt; "{name} {status}{} |{}", Numbers(out), Numbers(values))
}
