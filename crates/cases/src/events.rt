// The kind `rows`: a rows event, its images one after the other, and their values.
use crate::images::{Layout, tell_values};
use crate::output::Hex;
use crate::room::part;
use crate::stop::Answer;
use crate::words::Words;
use rows_event::{Images, Rows};
use std::io::Write;
use wire::Refusal;

// `ok FLAGS EXTRA SETS`, each with a space behind it
fn tell_parts(rows: Rows, event: &[u8], out: &mut impl Write) -> Answer {
    write!(out, "ok {} ", rows.flags)?;
    match rows.extra {
        Some(extra) => write!(out, "{} ", Hex(wire::part_of(event, extra)))?,
        None => write!(out, "none ")?,
    }
    write!(out, "{}", Hex(wire::part_of(event, rows.before)))?;
    if let Some(after) = rows.after {
        write!(out, ",{}", Hex(wire::part_of(event, after)))?;
    }
    write!(out, " ")?;
    Ok(())
}

// An image that is refused. The values before the refused one are told, and the walk over them comes to
// the refusal: nothing tells where the image ends, so all bytes behind its start may be its. Where its
// values begin at 0 no column is present, and no image begins: what is refused are bytes left over.
fn tell_broken(
    layout: Layout<'_>,
    event: &[u8],
    at: usize,
    refusal: Refusal,
    out: &mut impl Write,
) -> Answer {
    match layout.first_cursor() {
        Ok(cursor) if cursor.offset != 0 => {
            write!(out, "image {at} ")?;
            tell_values(layout, part(event, at, event.len()), cursor, out)?;
        }
        _ => {}
    }
    Err(refusal.into())
}

// What an image is read under, by its set.
fn layout_of<'a>(rows: Rows, record: &'a [u8], event: &'a [u8], second: bool) -> Layout<'a> {
    Layout {
        record,
        presence: rows_event::set_of(rows, event, second),
    }
}

// `rows CODE RECORD TABLEID HEX`. The images met are counted, which ends the walk too: nothing here proves
// that the walk moves on.
pub(crate) fn rows(mut words: Words<'_>, out: &mut impl Write) -> Answer {
    let code = words.number()?;
    let record = words.bytes()?;
    let table = words.number()?;
    let event = words.bytes()?;
    words.end()?;
    let rows = rows_event::read_rows(code, record, table, event)?;
    tell_parts(rows, event, out)?;
    let mut images = Images {
        at: rows.images,
        second: false,
    };
    for met in 0..u64::MAX {
        let at = images.at;
        match images.next(rows, record, event) {
            Ok(Some((image, next))) => {
                let layout = layout_of(rows, record, event, image.second);
                let cursor = layout.first_cursor()?;
                write!(out, "image {at} ")?;
                tell_values(layout, wire::part_of(event, image.part), cursor, out)?;
                images = next;
            }
            Ok(None) => {
                write!(out, "end {met}")?;
                break;
            }
            Err(refusal) => {
                let layout = layout_of(rows, record, event, images.second);
                return tell_broken(layout, event, at, refusal, out);
            }
        }
    }
    Ok(())
}
