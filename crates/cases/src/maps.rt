// The kinds of a table map: `event`, `event-parts`, `write-event`, `event-size`.
use crate::output::Hex;
use crate::room::tell_written;
use crate::stop::{Answer, Stop};
use crate::words::Words;
use std::io::Write;

// `event POSTHEADER HEX`
pub(crate) fn event(mut words: Words<'_>, out: &mut impl Write) -> Answer {
    let post_header = words.post_header()?;
    let bytes = words.bytes()?;
    words.end()?;
    let event = table_map::read_event(bytes, post_header)?;
    write!(out, "ok {} {}", event.id, event.flags)?;
    for part in [
        event.database,
        event.table,
        event.types,
        event.metadata,
        event.bits,
        event.optional,
    ] {
        write!(out, " {}", Hex(wire::part_of(bytes, part)))?;
    }
    Ok(())
}

// `event-parts POSTHEADER HEX`: each part by its own call
pub(crate) fn event_parts(mut words: Words<'_>, out: &mut impl Write) -> Answer {
    let post_header = words.post_header()?;
    let event = words.bytes()?;
    words.end()?;
    write!(out, "ok")?;
    for part in [
        table_map::database_name(event, post_header),
        table_map::table_name(event, post_header),
        table_map::column_types(event, post_header),
        table_map::column_metadata(event, post_header),
        table_map::nullable_bits(event, post_header),
        table_map::optional_metadata(event, post_header),
    ] {
        write!(out, " {}", Hex(part))?;
    }
    Ok(())
}

// `ID FLAGS DB TABLE TYPES METADATA BITS OPTIONAL`
#[derive(Clone, Copy)]
struct Parts<'a> {
    id: u64,
    flags: u16,
    database: &'a [u8],
    table: &'a [u8],
    types: &'a [u8],
    metadata: &'a [u8],
    bits: &'a [u8],
    optional: &'a [u8],
}

fn read_parts<'a>(words: &mut Words<'a>) -> Result<Parts<'a>, Stop> {
    Ok(Parts {
        id: words.number()?,
        flags: words.number()?,
        database: words.bytes()?,
        table: words.bytes()?,
        types: words.bytes()?,
        metadata: words.bytes()?,
        bits: words.bytes()?,
        optional: words.bytes()?,
    })
}

// `write-event ID FLAGS DB TABLE TYPES METADATA BITS OPTIONAL ROOM`
pub(crate) fn write_event(mut words: Words<'_>, room: &mut [u8], out: &mut impl Write) -> Answer {
    let p = read_parts(&mut words)?;
    let room = words.room(room)?;
    words.end()?;
    let written = table_map::write_event(
        p.id, p.flags, p.database, p.table, p.types, p.metadata, p.bits, p.optional, room,
    );
    tell_written(room, written, out)
}

// `event-size ID FLAGS DB TABLE TYPES METADATA BITS OPTIONAL`
pub(crate) fn event_size(mut words: Words<'_>, out: &mut impl Write) -> Answer {
    let p = read_parts(&mut words)?;
    words.end()?;
    let size = table_map::event_size(
        p.id, p.flags, p.database, p.table, p.types, p.metadata, p.bits, p.optional,
    )?;
    write!(out, "ok {size}")?;
    Ok(())
}
