// The buffer that a writing case lends: filled before the call, and looked at after it, so that a byte
// that the call was not to write shows.
use crate::output::Hex;
use crate::stop::{Answer, Stop};
use std::io::Write;
use wire::Refusal;

// What every byte holds before the call.
pub(crate) const FILLER: u8 = 0xA5;

// The bytes from `from` to `to`, as far as they are there.
pub(crate) fn part(s: &[u8], from: usize, to: usize) -> &[u8] {
    let end = to.min(s.len());
    s.get(from..end).unwrap_or_default()
}

fn is_untouched(bytes: &[u8]) -> bool {
    bytes.iter().all(|byte| *byte == FILLER)
}

// All but the bytes from `from` to `to` hold what they were filled with.
pub(crate) fn unspoiled(room: &[u8], from: usize, to: usize) -> Answer {
    if is_untouched(part(room, 0, from)) && is_untouched(part(room, to, room.len())) {
        return Ok(());
    }
    Err(Stop::Spoiled)
}

// A checksum: it stands in for a copy of the bytes, to see later whether they changed. The remainder
// shows that the sum fits.
pub(crate) fn digest(bytes: &[u8]) -> u64 {
    bytes
        .iter()
        .fold(0, |sum, byte| sum % 4294967291 * 257 + u64::from(*byte))
}

// `ok HEX`: what a writer answered that starts at the room's first byte.
pub(crate) fn tell_written(
    room: &[u8],
    written: Result<usize, Refusal>,
    out: &mut impl Write,
) -> Answer {
    unspoiled(room, 0, written.unwrap_or(0))?;
    write!(out, "ok {}", Hex(part(room, 0, written?)))?;
    Ok(())
}
