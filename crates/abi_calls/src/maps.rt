// The calls that read a map.
use crate::told::{LEFT, tell, tell_bytes};
use std::io;

// The bytes of the map's record.
pub(crate) const RECORD: usize = 90;

fn map(rt: &impl Print, event: &[u8], post_header: u8) -> io::Result<()> {
    let mut out = [LEFT; 6];
    let status = feed_abi::feed_map(event, post_header, &mut out);
    tell(rt, "feed_map", status, &out)
}

// Checks the map in a dialect and leaves its record.
pub(crate) fn check(
    rt: &impl Print,
    event: &[u8],
    dialect: u8,
    record: &mut [u8],
) -> io::Result<()> {
    let mut out = [LEFT; 2];
    let status = feed_abi::feed_check(event, 8, dialect, record, &mut out);
    tell_bytes(rt, "feed_check", status, &out, record)
}

fn check_alone(rt: &impl Print, event: &[u8], dialect: u8) -> io::Result<()> {
    let mut record = [0u8; RECORD];
    check(rt, event, dialect, &mut record)
}

fn parts(rt: &impl Print, event: &[u8]) -> io::Result<()> {
    let mut out = [LEFT; 8];
    let status = feed_abi::feed_parts(event, 8, &mut out);
    tell(rt, "feed_parts", status, &out)
}

fn names(rt: &impl Print, event: &[u8], dialect: u8) -> io::Result<()> {
    let mut out = [LEFT; 3];
    let status = feed_abi::feed_names(event, 8, dialect, &mut out);
    tell(rt, "feed_names", status, &out)
}

fn name<'a>(rt: &impl Print, names: &'a [u8], operator: &'a [u8], column: usize) -> io::Result<()> {
    let mut out = [LEFT; 2];
    let status = feed_abi::feed_name(names, operator, column, &mut out);
    tell(rt, "feed_name", status, &out)
}

fn first_field(rt: &impl Print, event: &[u8], dialect: u8) -> io::Result<()> {
    let mut out = [LEFT; 3];
    let status = feed_abi::feed_fields(event, 8, dialect, &mut out);
    tell(rt, "feed_fields", status, &out)
}

fn field(rt: &impl Print, event: &[u8], offset: usize) -> io::Result<()> {
    let mut out = [LEFT; 5];
    let status = feed_abi::feed_field(event, offset, 6, 14, &mut out);
    tell(rt, "feed_field", status, &out)
}

fn item(rt: &impl Print, list: u64, value: &[u8], offset: usize) -> io::Result<()> {
    let mut out = [LEFT; 4];
    let status = feed_abi::feed_item(list, value, offset, &mut out);
    tell(rt, "feed_item", status, &out)
}

fn checks(rt: &impl Print, event: &[u8]) -> io::Result<()> {
    check_alone(rt, event, 0)?;
    check_alone(rt, event, 2)?;
    check_alone(rt, event, 3)
}

fn names_told(rt: &impl Print, event: &[u8]) -> io::Result<()> {
    names(rt, event, 1)?;
    names(rt, event, 3)?;
    name(rt, b"\x01a\x03bcd", b"\x02xy\x00\x01z", 1)?;
    name(rt, b"", b"\x02xy\x00\x01z", 2)
}

fn fields(rt: &impl Print, event: &[u8]) -> io::Result<()> {
    first_field(rt, event, 0)?;
    first_field(rt, event, 1)?;
    first_field(rt, event, 3)?;
    field(rt, event, 52)?;
    field(rt, event, 60)?;
    field(rt, event, 61)?;
    field(rt, event, 144)
}

fn items(rt: &impl Print) -> io::Result<()> {
    item(rt, 1, b"\x05\xfc\x00\x01", 1)?;
    item(rt, 2, b"\x00\x00\x0a\x14", 2)?;
    item(rt, 3, b"\x01x\x02yz\x01w", 2)?;
    item(rt, 4, b"\x03\x01x\x02yz\x01w", 0)?;
    item(rt, 1, b"\x05", 1)?;
    item(rt, 2, b"\x00\x00\x0a", 2)?;
    item(rt, 5, b"\x05", 0)
}

pub(crate) fn map_calls(rt: &impl Print, event: &[u8]) -> io::Result<()> {
    map(rt, event, 8)?;
    map(rt, event, 6)?;
    parts(rt, event)?;
    checks(rt, event)?;
    names_told(rt, event)?;
    fields(rt, event)?;
    items(rt)
}
