// The event's parts, as places in the lent bytes (table_map_event.rs: TableMapEvent).
ghost use Rattle.std.specs.Prelude.{◌≡◌};
ghost use Rattle.table_map.specs.Events.{id_bytes, read_names, read_columns, read_event, part_in};
ghost use Rattle.table_map.specs.Inner.Events.{or_none};

use crate::part::{long_part, short_part};
use wire::{Part, Refusal, part_of, read_le, read_packed, within};

// The post-header length of events whose table id has 4 bytes.
const SHORT_POST_HEADER: u8 = 6;

#[derive(Clone, Copy, Debug, PartialEq, Eq)]
pub struct Event {
    pub id: u64,
    pub flags: u16,
    pub database: Part,
    pub table: Part,
    // a type byte for each column
    pub types: Part,
    pub metadata: Part,
    // a bit for each column: whether it can be NULL
    pub bits: Part,
    // the optional fields
    pub optional: Part,
}

// The two names, and the place after the byte behind the second.
#[tactic(auto, unfolding(crate::specs::Events::read_names))]
fn read_names(s: &[u8], at: usize) -> Result<(Part, Part, usize), Refusal>
    ensures { result ≡ read_names s.now at }
{
    let (database, end) = short_part(s, at)?;
    let behind = within(s, end, 1, end)?;
    let (table, end) = short_part(s, behind)?;
    let next = within(s, end, 1, end)?;
    Ok((database, table, next))
}

// Types, metadata and nullable bits of the columns, and the place after them.
#[tactic(auto, unfolding(crate::specs::Events::read_columns))]
fn read_columns(s: &[u8], at: usize) -> Result<(Part, Part, Part, usize), Refusal>
    ensures { result ≡ read_columns s.now at }
{
    let (count, start) = read_packed(s, at)?;
    let types = Part {
        start,
        len: count as usize,
    };
    let behind = within(s, start, types.len, start)?;
    let (metadata, start) = long_part(s, behind)?;
    let len = wire::bytes_for(types.len);
    let next = within(s, start, len, start)?;
    Ok((types, metadata, Part { start, len }, next))
}

// How many bytes the table id has.
fn id_bytes(post_header: u8) -> usize
    ensures { result ≡ id_bytes post_header }
{
    if post_header == SHORT_POST_HEADER {
        4
    } else {
        6
    }
}

// The event in the lent bytes, which stand behind its header; post_header is the length that the format description gives for table maps.
#[tactic(auto, unfolding(crate::specs::Events::read_event))]
pub fn read_event(event: &[u8], post_header: u8) -> Result<Event, Refusal>
    ensures { result ≡ read_event event.now post_header }
{
    let width = id_bytes(post_header);
    let at = within(event, 0, width, 0)?;
    let behind = within(event, at, 2, at)?;
    let (database, table, next) = read_names(event, behind)?;
    let (types, metadata, bits, start) = read_columns(event, next)?;
    let optional = Part {
        start,
        len: event.len() - start,
    };
    Ok(Event {
        id: read_le(event, 0, width),
        flags: read_le(event, at, 2) as u16,
        database,
        table,
        types,
        metadata,
        bits,
        optional,
    })
}

// ---- the parts of an event, uncopied: empty where it is refused. Each has a function of its own: they are public, and docs name them.

const NO_PART: Part = Part { start: 0, len: 0 };

const NO_EVENT: Event = Event {
    id: 0,
    flags: 0,
    database: NO_PART,
    table: NO_PART,
    types: NO_PART,
    metadata: NO_PART,
    bits: NO_PART,
    optional: NO_PART,
};

// The event, and where it is refused one whose parts are empty.
fn event_or_none(event: &[u8], post_header: u8) -> Event
    ensures { result ≡ or_none (read_event event.now post_header) }
{
    read_event(event, post_header).unwrap_or(NO_EVENT)
}

// The name of the database.
pub fn database_name(event: &[u8], post_header: u8) -> &[u8]
    ensures { result.now ≡ part_in (λ e. e.database) event.now (read_event event.now post_header) }
{
    part_of(event, event_or_none(event, post_header).database)
}

// The name of the table.
pub fn table_name(event: &[u8], post_header: u8) -> &[u8]
    ensures { result.now ≡ part_in (λ e. e.table) event.now (read_event event.now post_header) }
{
    part_of(event, event_or_none(event, post_header).table)
}

// A type byte for each column.
pub fn column_types(event: &[u8], post_header: u8) -> &[u8]
    ensures { result.now ≡ part_in (λ e. e.types) event.now (read_event event.now post_header) }
{
    part_of(event, event_or_none(event, post_header).types)
}

// The metadata of all columns.
pub fn column_metadata(event: &[u8], post_header: u8) -> &[u8]
    ensures { result.now ≡ part_in (λ e. e.metadata) event.now (read_event event.now post_header) }
{
    part_of(event, event_or_none(event, post_header).metadata)
}

// A bit for each column, the lowest of each byte first: whether it can be NULL.
pub fn nullable_bits(event: &[u8], post_header: u8) -> &[u8]
    ensures { result.now ≡ part_in (λ e. e.bits) event.now (read_event event.now post_header) }
{
    part_of(event, event_or_none(event, post_header).bits)
}

// The optional fields.
pub fn optional_metadata(event: &[u8], post_header: u8) -> &[u8]
    ensures { result.now ≡ part_in (λ e. e.optional) event.now (read_event event.now post_header) }
{
    part_of(event, event_or_none(event, post_header).optional)
}
