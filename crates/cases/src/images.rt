// The kinds `first`, `step` and `image`, a row image that is read; and `room`, how large one can be.
use crate::stop::{Answer, Stop};
use crate::values::Lent;
use crate::words::Words;
use image::{Cursor, Step};
use std::io::Write;
use value::Value;
use wire::Refusal;

// What an image is read under: the record of its map, and its presence bits.
#[derive(Clone, Copy)]
pub(crate) struct Layout<'a> {
    pub(crate) record: &'a [u8],
    pub(crate) presence: &'a [u8],
}

impl Layout<'_> {
    pub(crate) fn first_cursor(self) -> Result<Cursor, Refusal> {
        image::first_cursor(self.record, self.presence)
    }

    fn step(self, image: &[u8], at: Cursor) -> Result<Step<Cursor>, Refusal> {
        at.step(self.record, self.presence, image)
    }
}

// `first RECORD PRESENCE`
pub(crate) fn first(mut words: Words<'_>, out: &mut impl Write) -> Answer {
    let layout = words.layout()?;
    words.end()?;
    let cursor = layout.first_cursor()?;
    write!(out, "ok {} {}", cursor.column, cursor.offset)?;
    Ok(())
}

// `step RECORD PRESENCE IMAGE COLUMN OFFSET`
pub(crate) fn step(mut words: Words<'_>, out: &mut impl Write) -> Answer {
    let layout = words.layout()?;
    let bytes = words.bytes()?;
    let cursor = words.cursor()?;
    words.end()?;
    let (column, value, next) = match layout.step(bytes, cursor)? {
        Step::Null { column, next } => (column, Value::Null, next),
        Step::Value {
            column,
            value,
            next,
        } => (column, value, next),
        Step::End { used } => {
            write!(out, "end {used}")?;
            return Ok(());
        }
    };
    let value = Lent { value, bytes };
    write!(out, "ok {column} {value} {} {}", next.column, next.offset)?;
    Ok(())
}

// The values of an image from a cursor on, each with a space behind it; and how many bytes the image
// used. The turns are counted, as nothing here proves that the walk moves on.
pub(crate) fn tell_values(
    layout: Layout<'_>,
    bytes: &[u8],
    from: Cursor,
    out: &mut impl Write,
) -> Result<usize, Stop> {
    let mut cursor = from;
    for _ in 0..u64::MAX {
        let (value, next) = match layout.step(bytes, cursor)? {
            Step::Null { column: _, next } => (Value::Null, next),
            Step::Value {
                column: _,
                value,
                next,
            } => (value, next),
            Step::End { used } => return Ok(used),
        };
        write!(out, "{} ", Lent { value, bytes })?;
        cursor = next;
    }
    Ok(0)
}

// `image RECORD PRESENCE IMAGE`
pub(crate) fn image(mut words: Words<'_>, out: &mut impl Write) -> Answer {
    let layout = words.layout()?;
    let bytes = words.bytes()?;
    words.end()?;
    let used = tell_values(layout, bytes, layout.first_cursor()?, out)?;
    write!(out, "end {used}")?;
    Ok(())
}

// `room RECORD PRESENCE`
pub(crate) fn room_of(mut words: Words<'_>, out: &mut impl Write) -> Answer {
    let Layout { record, presence } = words.layout()?;
    words.end()?;
    let bytes = image::image_room(record, presence)?;
    write!(out, "ok {bytes}")?;
    Ok(())
}
