// Bytes written into a lent buffer: all of them, or none.
ghost use Rattle.std.specs.Prelude.{◌≡◌, ◌+◌, leb};
ghost use Rattle.wire.specs.Stored.{store, answer_of, left_of};

use crate::refusal::{NO_ROOM, Refusal, refuse};

// Whether n bytes from at on lie within len bytes. The sum of at and n may be too large to be made.
pub fn has_room(len: usize, at: usize, n: usize) -> bool
    ensures { result ≡ leb (at + n) len }
{
    if len < at {
        return false;
    }
    n <= len - at
}

// Writes all of bytes from at on. Like every writer, it answers the place after what it wrote, or why it wrote nothing. They go one after the
// other: a copy of a length that the compiler does not know would be a call of memcpy or memmove, and the library for C needs neither.
pub fn write_bytes(bytes: &[u8], buf: &mut [u8], at: usize) -> Result<usize, Refusal>
    ensures result_value { result ≡ answer_of (store bytes.now buf.old at) }
    ensures buf_after { buf.new ≡ left_of (store bytes.now buf.old at) buf.old }
{
    if !has_room(buf.len(), at, bytes.len()) {
        return Err(refuse(NO_ROOM, 0));
    }
    for i in 0..bytes.len() {
        buf[at + i] = bytes[i];
    }
    Ok(at + bytes.len())
}

// The same of some bytes of an array of the caller's. It is not put into the caller: there the compiler sees that array and buffer are apart,
// and makes that copy after all.
#[inline(never)]
pub(crate) fn write_some(bytes: &[u8], buf: &mut [u8], at: usize) -> Result<usize, Refusal>
    ensures result_value { result ≡ answer_of (store bytes.now buf.old at) }
    ensures buf_after { buf.new ≡ left_of (store bytes.now buf.old at) buf.old }
{
    write_bytes(bytes, buf, at)
}
