// The calls that read and write rows under the record of the map.
use crate::told::{LEFT, tell, tell_bytes, tell_values};
use std::io;

// All columns are present, and the TINYINT is NULL.
const PRESENCE: [u8; 2] = *b"\xff\x3f";

const NULLS: [u8; 2] = *b"\x00\x08";

const ROW: [u8; 57] =
    *b"\x00\xc8\xfe\xff\xff\xff\x00\x28\x6b\xee\x00\x00\xc0\x3f\x00\x00\x00\x00\x00\x00\x04\x40\
    \x65\x53\xf1\x00\x0c\x7c\xb1\xd0\x0f\x99\xca\x65\x35\x15\x09\xfb\xf1\x7e\x9a\x27\xee\x29\
    \x03\x00\x00\x00\x0a\x0b\x0c\x02\x00hi\x02\x05";

// An INT, and a TIME with a fraction of more than a second.
const WRONG: [u8; 10] = *b"\xfc\x07\x00\x00\x00\x80\x00\x01\x27\x10";

const WRONG_PRESENCE: [u8; 2] = *b"\x01\x01";

fn column(rt: &impl Print, record: &[u8], column: usize) -> io::Result<()> {
    let mut out = [LEFT; 5];
    let status = feed_abi::feed_column(record, column, &mut out);
    tell(rt, "feed_column", status, &out)
}

fn first(rt: &impl Print, record: &[u8], presence: &[u8]) -> io::Result<()> {
    let mut out = [LEFT; 2];
    let status = feed_abi::feed_first(record, presence, &mut out);
    tell(rt, "feed_first", status, &out)
}

fn room(rt: &impl Print, record: &[u8], presence: &[u8]) -> io::Result<()> {
    let mut out = [LEFT; 2];
    let status = feed_abi::feed_room(record, presence, &mut out);
    tell(rt, "feed_room", status, &out)
}

fn step(
    rt: &impl Print,
    record: &[u8],
    presence: &[u8],
    image: &[u8],
    column: usize,
    offset: usize,
) -> io::Result<()> {
    let mut out = [LEFT; 11];
    let status = feed_abi::feed_step(record, presence, image, column, offset, &mut out);
    tell(rt, "feed_step", status, &out)
}

// The plan of all columns, and the row read by it.
fn plan(rt: &impl Print, record: &[u8], images: &[u8]) -> io::Result<()> {
    let mut plan = [0u8; 42];
    let mut out = [LEFT; 2];
    let status = feed_abi::feed_plan(record, &PRESENCE, &mut plan, &mut out);
    tell_bytes(rt, "feed_plan", status, &out, &plan)?;
    runs(rt, &plan, images)
}

fn run(rt: &impl Print, plan: &[u8], images: &[u8], item: usize, offset: usize) -> io::Result<()> {
    let mut values = [LEFT; 120];
    let mut out = [LEFT; 4];
    let status = feed_abi::feed_run(plan, images, 0, item, offset, &mut values, &mut out);
    tell_values(rt, "feed_run", status, &out, &values)
}

fn runs(rt: &impl Print, plan: &[u8], images: &[u8]) -> io::Result<()> {
    run(rt, plan, images, 0, 2)?;
    run(rt, plan, images, 15, 2)
}

fn start(rt: &impl Print, record: &[u8], nulls: &[u8]) -> io::Result<()> {
    let mut image = [0xa5u8; 3];
    let mut out = [LEFT; 2];
    let status = feed_abi::feed_start(record, &PRESENCE, nulls, &mut image, &mut out);
    tell_bytes(rt, "feed_start", status, &out, &image)
}

// A value put at an offset of 1.
fn put(rt: &impl Print, record: &[u8], column: usize, kind: u64, parts: &[u64]) -> io::Result<()> {
    let mut image = [0xa5u8; 10];
    let mut out = [LEFT; 2];
    let status = feed_abi::feed_put(
        record, &PRESENCE, &NULLS, column, 1, kind, parts, b"lent", &mut image, &mut out,
    );
    tell_bytes(rt, "feed_put", status, &out, &image)
}

fn puts(rt: &impl Print, record: &[u8]) -> io::Result<()> {
    put(rt, record, 0, 2, &[18446744073709551614])?;
    put(rt, record, 1, 3, &[4000000000])?;
    put(rt, record, 2, 4, &[1069547520])?;
    put(rt, record, 3, 5, &[4612811918334230528])?;
    put(rt, record, 4, 6, &[1700000000, 120000])?;
    put(rt, record, 5, 7, &[2024])?;
    put(rt, record, 6, 8, &[2024, 5, 17])
}

fn more_puts(rt: &impl Print, record: &[u8]) -> io::Result<()> {
    put(rt, record, 7, 9, &[2031, 6, 18, 19, 20, 21, 654321])?;
    put(rt, record, 8, 10, &[1, 22, 23, 24, 456700])?;
    put(rt, record, 9, 11, &[1, 3])?;
    put(rt, record, 11, 1, &[])?;
    put(rt, record, 12, 0, &[2])
}

fn steps(rt: &impl Print, record: &[u8], image: &[u8]) -> io::Result<()> {
    step(rt, record, &PRESENCE, image, 7, 31)?;
    step(rt, record, &PRESENCE, image, 14, 57)?;
    step(rt, record, &WRONG_PRESENCE, &WRONG, 1, 5)
}

pub(crate) fn row_calls(rt: &impl Print, record: &[u8]) -> io::Result<()> {
    column(rt, record, 10)?;
    column(rt, record, 14)?;
    first(rt, record, &PRESENCE)?;
    first(rt, record, b"\xff")?;
    room(rt, record, &PRESENCE)?;
    room(rt, record, b"\xff")?;
    steps(rt, record, &ROW)?;
    plan(rt, record, &ROW)
}

pub(crate) fn write_calls(rt: &impl Print, record: &[u8]) -> io::Result<()> {
    start(rt, record, &NULLS)?;
    start(rt, record, b"")?;
    puts(rt, record)?;
    more_puts(rt, record)
}
