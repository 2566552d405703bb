// The kinds `value`, `store`, `size` and `size-at`: one value of a column.
use crate::room::tell_written;
use crate::stop::Answer;
use crate::values::Lent;
use crate::words::Words;
use std::io::Write;

// `value TYPE M0 M1 UNSIGNED HEX`
pub(crate) fn value(mut words: Words<'_>, out: &mut impl Write) -> Answer {
    let column = words.column()?;
    let bytes = words.bytes()?;
    words.end()?;
    let (value, next) = value::read_lone(column, bytes)?;
    write!(out, "ok {} {next}", Lent { value, bytes })?;
    Ok(())
}

// `store TYPE M0 M1 UNSIGNED VALUE ROOM`
pub(crate) fn store(mut words: Words<'_>, room: &mut [u8], out: &mut impl Write) -> Answer {
    let column = words.column()?;
    let Lent { value, bytes } = words.value()?;
    let room = words.room(room)?;
    words.end()?;
    let written = value::write_lone(column, value, bytes, room);
    tell_written(room, written, out)
}

// `size TYPE M0 M1 UNSIGNED VALUE`
pub(crate) fn size(mut words: Words<'_>, out: &mut impl Write) -> Answer {
    let column = words.column()?;
    let Lent { value, bytes } = words.value()?;
    words.end()?;
    let size = value::lone_size(column, value, bytes)?;
    write!(out, "ok {size}")?;
    Ok(())
}

// `size-at TYPE M0 M1 UNSIGNED VALUE PLACE`
pub(crate) fn size_at(mut words: Words<'_>, out: &mut impl Write) -> Answer {
    let column = words.column()?;
    let Lent { value, bytes } = words.value()?;
    let place = words.number()?;
    words.end()?;
    let size = value::value_size(column, value, bytes, place)?;
    write!(out, "ok {size}")?;
    Ok(())
}
