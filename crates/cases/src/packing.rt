// The kinds `packed` and `pack`: a packed integer.
use crate::room::tell_written;
use crate::stop::Answer;
use crate::words::Words;
use std::io::Write;

// `packed HEX AT`
pub(crate) fn packed(mut words: Words<'_>, out: &mut impl Write) -> Answer {
    let text = words.bytes()?;
    let at = words.number()?;
    words.end()?;
    let (value, next) = wire::read_packed(text, at)?;
    write!(out, "ok {value} {next}")?;
    Ok(())
}

// `pack VALUE ROOM`
pub(crate) fn pack(mut words: Words<'_>, room: &mut [u8], out: &mut impl Write) -> Answer {
    let value = words.number()?;
    let room = words.room(room)?;
    words.end()?;
    let written = wire::write_packed(value, room, 0);
    tell_written(room, written, out)
}
