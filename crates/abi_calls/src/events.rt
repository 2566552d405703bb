// The calls that read rows events.
use crate::told::{LEFT, tell};
use std::io;

// Two rows of the columns 0 and 12, with extra data.
const WRITTEN: [u8; 24] = *b"\x02\x01\x00\x00\x00\x00\x01\x00\x05\x00\x07\x08\x09\x0e\x01\x10\
    \xfc\xfe\xff\xff\xff\x02\xfd\x07";

// In the first edition, a row of column 0 before the change and of column 12 after it.
const UPDATED: [u8; 20] = *b"\x02\x01\x00\x00\x00\x00\x03\x00\x0e\x01\x00\x00\x10\
    \xfe\xfe\xff\xff\xff\xfe\x02";

fn rows(rt: &impl Print, code: u64, record: &[u8], table: u64, event: &[u8]) -> io::Result<()> {
    let mut out = [LEFT; 10];
    let status = feed_abi::feed_rows(code, record, table, event, &mut out);
    tell(rt, "feed_rows", status, &out)
}

// Where the sets of an event stand, each of two bytes; 0 for a second one that there is not.
#[derive(Clone, Copy)]
struct Sets {
    first: usize,
    second: usize,
}

const WRITTEN_SETS: Sets = Sets {
    first: 14,
    second: 0,
};

const UPDATED_SETS: Sets = Sets {
    first: 9,
    second: 11,
};

// An image whose bytes begin at an offset, under the first set or the second.
fn image(
    rt: &impl Print,
    record: &[u8],
    event: &[u8],
    sets: Sets,
    offset: usize,
    second: u64,
) -> io::Result<()> {
    let (has_second, length) = if sets.second == 0 { (0, 0) } else { (1, 2) };
    let mut out = [LEFT; 6];
    let status = feed_abi::feed_image(
        record,
        event,
        sets.first,
        2,
        has_second,
        sets.second,
        length,
        offset,
        second,
        &mut out,
    );
    tell(rt, "feed_image", status, &out)
}

fn written_images(rt: &impl Print, record: &[u8], event: &[u8]) -> io::Result<()> {
    image(rt, record, event, WRITTEN_SETS, 16, 0)?;
    image(rt, record, event, WRITTEN_SETS, 22, 0)
}

fn updated_images(rt: &impl Print, record: &[u8], event: &[u8]) -> io::Result<()> {
    image(rt, record, event, UPDATED_SETS, 13, 0)?;
    image(rt, record, event, UPDATED_SETS, 18, 1)?;
    image(rt, record, event, UPDATED_SETS, 20, 0)?;
    image(rt, record, event, UPDATED_SETS, 19, 1)
}

fn written(rt: &impl Print, record: &[u8], event: &[u8]) -> io::Result<()> {
    rows(rt, 30, record, 258, event)?;
    rows(rt, 30, record, 259, event)?;
    rows(rt, 31, record, 258, event)?;
    written_images(rt, record, event)
}

fn updated(rt: &impl Print, record: &[u8], event: &[u8]) -> io::Result<()> {
    rows(rt, 24, record, 258, event)?;
    updated_images(rt, record, event)
}

pub(crate) fn event_calls(rt: &impl Print, record: &[u8]) -> io::Result<()> {
    written(rt, record, &WRITTEN)?;
    updated(rt, record, &UPDATED)
}
