// The answer to a line: its name is the kind of the case, and each kind reads the words behind it. The
// kinds stand in the order of docs/CASES.md.
use crate::arrivals::blocks;
use crate::checks::{check, check_as, name, names, record};
use crate::events::rows;
use crate::fields::{field, fields, fields_as};
use crate::images::{first, image, room_of, step};
use crate::lists::{item, list};
use crate::lone::{size, size_at, store, value};
use crate::maps::{event, event_parts, event_size, write_event};
use crate::packing::{pack, packed};
use crate::rows::{put, row, start};
use crate::stop::{Answer, Stop, tell_refusal};
use crate::words::Words;
use std::io;
use std::io::Write;

// The line is changed: its byte strings are decoded in it. Words are used up, room and output are lent: a
// struct of the three would be taken apart again in each kind.
fn answer_case(line: &mut [u8], room: &mut [u8], out: &mut impl Write) -> Answer {
    let (kind, words) = Words::behind_name(line, b' ');
    match kind {
        b"packed" => packed(words, out),
        b"pack" => pack(words, room, out),
        b"value" => value(words, out),
        b"store" => store(words, room, out),
        b"size" => size(words, out),
        b"size-at" => size_at(words, out),
        b"event" => event(words, out),
        b"event-parts" => event_parts(words, out),
        b"write-event" => write_event(words, room, out),
        b"event-size" => event_size(words, out),
        b"fields" => fields(words, out),
        b"fields-as" => fields_as(words, out),
        b"field" => field(words, out),
        b"list" => list(words, out),
        b"item" => item(words, out),
        b"check" => check(words, room, out),
        b"check-as" => check_as(words, room, out),
        b"record" => record(words, out),
        b"names" => names(words, out),
        b"name" => name(words, out),
        b"first" => first(words, out),
        b"step" => step(words, out),
        b"image" => image(words, out),
        b"rows" => rows(words, out),
        b"blocks" => blocks(words, room, out),
        b"room" => room_of(words, out),
        b"start" => start(words, room, out),
        b"put" => put(words, room, out),
        b"row" => row(words, room, out),
        _ => Err(Stop::Bad),
    }
}

// Answers a line, and ends the answer's line.
pub(crate) fn answer(line: &mut [u8], room: &mut [u8], out: &mut impl Write) -> io::Result<()> {
    match answer_case(line, room, out) {
        Ok(()) => {}
        Err(Stop::Bad) => write!(out, "bad")?,
        Err(Stop::Refused(refusal)) => tell_refusal(refusal, out)?,
        Err(Stop::Spoiled) => write!(out, "spoiled")?,
        Err(Stop::Lost(error)) => return Err(error),
    }
    out.write_all(b"\n")
}
