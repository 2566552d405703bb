// Answers, gathered in a buffer that is written when it is full and at the end, so that a short answer
// costs no system call. Std's `BufWriter` is not used, since it takes its buffer of the heap.
ghost use Rattle.std.specs.Prelude.{◌≤◌, length};

use std::io::Write;
use std::{fmt, io};

// The first `used` bytes of the buffer wait.
#[derive(Drop)]
pub(crate) struct Output<'a, R> {
    rt: &'a R,
    buffer: &'a mut [u8],
    used: usize,
    ghost inside: { used ≤ length buffer.now },
}

impl<'a, R: Print> Output<'a, R> {
    pub(crate) fn new(rt: &'a R, buffer: &'a mut [u8]) -> Output<'a, R> {
        Output {
            rt,
            buffer,
            used: 0,
        }
    }
}

impl<R: Print> Write for Output<'_, R> {
    fn write(&mut self, bytes: &[u8]) -> io::Result<usize> {
        if self.used == self.buffer.len() {
            self.flush()?;
        }
        let free = &mut self.buffer[self.used..];
        let count = bytes.len().min(free.len());
        free[..count].copy_from_slice(&bytes[..count]);
        self.used += count;
        Ok(count)
    }

    fn flush(&mut self) -> io::Result<()> {
        self.rt.write_all(&self.buffer[..self.used])?;
        self.used = 0;
        Ok(())
    }
}

const HEX_DIGITS: &[u8; 16] = b"0123456789abcdef";

fn hex_pair(byte: u8) -> [u8; 2] {
    [
        HEX_DIGITS[usize::from(byte >> 4)],
        HEX_DIGITS[usize::from(byte & 15)],
    ]
}

// The digits of bytes, if there is room for so many pairs.
fn hex_digits<'a>(bytes: &[u8], room: &'a mut [[u8; 2]]) -> Option<&'a str> {
    let pairs = room.get_mut(..bytes.len())?;
    for (pair, byte) in pairs.iter_mut().zip(bytes) {
        *pair = hex_pair(*byte);
    }
    str::from_utf8(pairs.as_flattened()).ok()
}

// How many bytes are written at once. A `write!` for each costs more than to read and decode it.
const PIECE: usize = 64;

// Bytes in hex, `-` where there are none.
#[derive(Clone, Copy)]
pub(crate) struct Hex<'a>(pub(crate) &'a [u8]);

impl fmt::Display for Hex<'_> {
    fn fmt<W: fmt::Write>(&self, f: &mut fmt::Formatter<W>) -> fmt::Result {
        if self.0.is_empty() {
            return write!(f, "-");
        }
        let mut room = [[0u8; 2]; PIECE];
        for piece in self.0.chunks(PIECE) {
            f.write_str(hex_digits(piece, &mut room).ok_or(fmt::Error)?)?;
        }
        Ok(())
    }
}
