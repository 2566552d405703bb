// The kinds of the check and of what it writes: `check`, `check-as`, `record`, `name` and `names`.
use crate::output::Hex;
use crate::room::tell_written;
use crate::stop::Answer;
use crate::words::Words;
use map_check::TablePlace;
use std::io::Write;
use value::Dialect;

// `POSTHEADER HEX ROOM`
fn tell_check(
    dialect: Dialect,
    mut words: Words<'_>,
    room: &mut [u8],
    out: &mut impl Write,
) -> Answer {
    let post_header = words.post_header()?;
    let event = words.bytes()?;
    let room = words.room(room)?;
    words.end()?;
    let written = map_check::check(event, post_header, dialect, room);
    tell_written(room, written, out)
}

// `check POSTHEADER HEX ROOM`
pub(crate) fn check(words: Words<'_>, room: &mut [u8], out: &mut impl Write) -> Answer {
    tell_check(Dialect::Document, words, room, out)
}

// `check-as DIALECT POSTHEADER HEX ROOM`
pub(crate) fn check_as(mut words: Words<'_>, room: &mut [u8], out: &mut impl Write) -> Answer {
    tell_check(words.dialect()?, words, room, out)
}

// `record HEX`
pub(crate) fn record(mut words: Words<'_>, out: &mut impl Write) -> Answer {
    let record = words.bytes()?;
    words.end()?;
    let columns = record::read_record(record)?;
    write!(out, "ok {columns}")?;
    Ok(())
}

// `name NAMES OPERATOR COLUMN`: whether there is such a name, and by the other call its bytes
pub(crate) fn name(mut words: Words<'_>, out: &mut impl Write) -> Answer {
    let names = words.bytes()?;
    let operator = words.bytes()?;
    let column = TablePlace(words.number()?);
    words.end()?;
    map_check::column_name(names, operator, column)?;
    let name = map_check::name_part(names, operator, column);
    write!(out, "ok {}", Hex(name))?;
    Ok(())
}

// `names DIALECT POSTHEADER HEX`
pub(crate) fn names(mut words: Words<'_>, out: &mut impl Write) -> Answer {
    let dialect = words.dialect()?;
    let post_header = words.post_header()?;
    let event = words.bytes()?;
    words.end()?;
    match map_check::names_field(event, post_header, dialect)? {
        Some(names) => write!(out, "ok 1 {} {}", names.start, names.len)?,
        None => write!(out, "ok 0 0 0")?,
    }
    Ok(())
}
