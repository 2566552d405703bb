// The kinds `start`, `put` and `row`: a row image that is written.
use crate::images::Layout;
use crate::output::Hex;
use crate::room::{digest, part, unspoiled};
use crate::stop::{Answer, Stop};
use crate::values::{Lent, is_value, read_value};
use crate::words::Words;
use image::Cursor;
use std::io::Write;
use wire::Refusal;

// The next cursor after a call of the writer. Nothing behind it may have changed, or, where the call
// refused, behind what was stored before.
fn stored(room: &[u8], before: usize, put: Result<Cursor, Refusal>) -> Result<Cursor, Stop> {
    let end = put.map_or(before, |next| next.offset);
    unspoiled(room, 0, end)?;
    Ok(put?)
}

// `ok HEX COLUMN OFFSET`: what a call stored from `from` on, and the next cursor
fn tell_stored(
    room: &[u8],
    from: usize,
    put: Result<Cursor, Refusal>,
    out: &mut impl Write,
) -> Answer {
    match put {
        Ok(next) => {
            unspoiled(room, from, next.offset)?;
            let bytes = Hex(part(room, from, next.offset));
            write!(out, "ok {bytes} {} {}", next.column, next.offset)?;
            Ok(())
        }
        Err(refusal) => {
            unspoiled(room, 0, 0)?;
            Err(refusal.into())
        }
    }
}

// `start RECORD PRESENCE NULLS ROOM`
pub(crate) fn start(mut words: Words<'_>, room: &mut [u8], out: &mut impl Write) -> Answer {
    let Layout { record, presence } = words.layout()?;
    let nulls = words.bytes()?;
    let room = words.room(room)?;
    words.end()?;
    let put = image::start(record, presence, nulls, room);
    tell_stored(room, 0, put, out)
}

// `put RECORD PRESENCE NULLS VALUE COLUMN OFFSET ROOM`
pub(crate) fn put(mut words: Words<'_>, room: &mut [u8], out: &mut impl Write) -> Answer {
    let Layout { record, presence } = words.layout()?;
    let nulls = words.bytes()?;
    let Lent { value, bytes } = words.value()?;
    let cursor = words.cursor()?;
    let room = words.room(room)?;
    words.end()?;
    let put = cursor.put(record, presence, nulls, value, bytes, room);
    tell_stored(room, cursor.offset, put, out)
}

// `row RECORD PRESENCE NULLS ROOM VALUE...`: a value for each present column. A record that is not valid
// and presence bits of wrong length are refused before the values are counted: there is nothing to count
// by then. What was stored must still be there after each call.
pub(crate) fn row(mut words: Words<'_>, room: &mut [u8], out: &mut impl Write) -> Answer {
    let Layout { record, presence } = words.layout()?;
    let nulls = words.bytes()?;
    let room = words.room(room)?;
    let count = words.count_if(is_value)?;
    if count != image::read_head(record, presence)?.present {
        return Err(Stop::Bad);
    }
    let put = image::start(record, presence, nulls, room);
    let mut cursor = stored(room, 0, put)?;
    for word in words {
        let Lent { value, bytes } = read_value(word)?;
        let before = digest(part(room, 0, cursor.offset));
        let put = cursor.put(record, presence, nulls, value, bytes, room);
        if digest(part(room, 0, cursor.offset)) != before {
            return Err(Stop::Spoiled);
        }
        cursor = stored(room, cursor.offset, put)?;
    }
    write!(out, "ok {}", Hex(part(room, 0, cursor.offset)))?;
    Ok(())
}
