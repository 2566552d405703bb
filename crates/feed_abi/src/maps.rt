// Maps: whose they are, the check, the columns of its record, and the names of columns.
ghost use Rattle.std.specs.Prelude.{◌≡◌};
ghost use Rattle.wire.specs.Stored.{answer_of, left_of};
ghost use Rattle.feed_abi.specs.Answers.{status_of, numbers_left, bytes_left};
ghost use Rattle.feed_abi.specs.Calls.{record_numbers, dialect_of};
ghost use Rattle.feed_abi.specs.Calls.{feed_map, feed_check, feed_column, feed_names, feed_name};

use crate::answer::{NO_NUMBERS, given_numbers, part_numbers, tell};
use map_check::TablePlace;
use value::Dialect;
use wire::Refusal;
use wire::refusal::{NO_COLUMN, NOT_TAKEN};

// The bytes of a record's head, and of an entry behind it: `record` has the same two, which are private there.
const HEAD_BYTES: usize = 6;

const ENTRY_BYTES: usize = 6;

// The dialect that a number asks for. Not a TryFrom: neither that trait nor the type is of this crate. The numbers are C's, so they stand
// here.
#[tactic(auto, unfolding(crate::specs::Calls::dialect_of))]
pub(crate) fn dialect_of(number: u8) -> Result<Dialect, Refusal>
    ensures { result ≡ dialect_of number }
{
    match number {
        0 => Ok(Dialect::Document),
        1 => Ok(Dialect::Mysql),
        2 => Ok(Dialect::Mariadb),
        _ => Err(wire::refuse(NOT_TAKEN, 0)),
    }
}

#[tactic(auto, unfolding(crate::specs::Calls::feed_map))]
fn map(event: &[u8], post_header: u8) -> Result<[u64; 6], Refusal>
    ensures { result ≡ feed_map event.now post_header }
{
    let map = table_map::read_event(event, post_header)?;
    Ok([
        map.id,
        u64::from(map.flags),
        map.database.start as u64,
        map.database.len as u64,
        map.table.start as u64,
        map.table.len as u64,
    ])
}

// A record that was written: its length, and how many entries it has. A length below the head's has none.
fn record_numbers(len: usize) -> [u64; 2]
    ensures { result ≡ record_numbers len }
{
    let columns = len.saturating_sub(HEAD_BYTES) / ENTRY_BYTES;
    [len as u64, columns as u64]
}

#[tactic(auto, unfolding(crate::specs::Calls::feed_check))]
fn check(
    event: &[u8],
    post_header: u8,
    dialect: u8,
    profile: &mut [u8],
) -> Result<[u64; 2], Refusal>
    ensures value { result ≡ answer_of (feed_check event.now post_header dialect profile.old) }
    ensures profile_after { profile.new
        ≡ left_of (feed_check event.now post_header dialect profile.old) profile.old }
{
    let asked = dialect_of(dialect)?;
    let len = map_check::check(event, post_header, asked, profile)?;
    Ok(record_numbers(len))
}

#[tactic(auto, unfolding(crate::specs::Calls::feed_column))]
fn entry(profile: &[u8], column: usize) -> Result<[u64; 5], Refusal>
    ensures { result ≡ feed_column profile.now column }
{
    let columns = record::read_record(profile)?;
    if columns <= column {
        return Err(wire::refuse(NO_COLUMN, column));
    }
    let entry = record::entry_in(profile, column);
    Ok([
        u64::from(entry.real),
        u64::from(entry.flags),
        u64::from(entry.m0),
        u64::from(entry.m1),
        u64::from(entry.charset),
    ])
}

#[tactic(auto, unfolding(crate::specs::Calls::feed_names))]
fn names(event: &[u8], post_header: u8, dialect: u8) -> Result<[u64; 3], Refusal>
    ensures { result ≡ feed_names event.now post_header dialect }
{
    let asked = dialect_of(dialect)?;
    let names = map_check::names_field(event, post_header, asked)?;
    Ok(given_numbers(names))
}

#[tactic(auto, unfolding(crate::specs::Calls::feed_name))]
fn name<'a>(names: &'a [u8], operator: &'a [u8], column: usize) -> Result<[u64; 2], Refusal>
    ensures { result ≡ feed_name names.now operator.now column }
{
    let name = map_check::column_name(names, operator, TablePlace(column))?;
    Ok(part_numbers(name))
}

// Whose map it is: table id, flags, and where the names of the database and of the table stand in the event, start and length. Rows events
// are read under the id.
#[tactic(auto, using(crate::proofs::Leaves::leaves))]
pub fn feed_map(event: &[u8], post_header: u8, out: &mut [u64]) -> u64
    ensures value { result ≡ status_of 6 (feed_map event.now post_header) out.old }
    ensures out_after { out.new ≡ numbers_left 6 (feed_map event.now post_header) out.old }
{
    if out.len() < 6 {
        return NO_NUMBERS;
    }
    tell(map(event, post_header), out)
}

// Checks a map and writes its record at the start of profile: the record's length, and how many columns it has.
#[tactic(auto, using(crate::proofs::Leaves::leaves))]
pub fn feed_check(
    event: &[u8],
    post_header: u8,
    dialect: u8,
    profile: &mut [u8],
    out: &mut [u64],
) -> u64
    ensures value { result ≡ status_of 2 (answer_of (feed_check event.now post_header dialect profile.old))
        out.old }
    ensures out_after { out.new
        ≡ numbers_left 2 (answer_of (feed_check event.now post_header dialect profile.old)) out.old }
    ensures profile_after { profile.new
        ≡ bytes_left 2 (feed_check event.now post_header dialect profile.old) out.old
        profile.old }
{
    // Before anything is written to the record.
    if out.len() < 2 {
        return NO_NUMBERS;
    }
    tell(check(event, post_header, dialect, profile), out)
}

// What a record says of a column: real type, flags, m0, m1, charset.
#[tactic(auto, using(crate::proofs::Leaves::leaves))]
pub fn feed_column(profile: &[u8], column: usize, out: &mut [u64]) -> u64
    ensures value { result ≡ status_of 5 (feed_column profile.now column) out.old }
    ensures out_after { out.new ≡ numbers_left 5 (feed_column profile.now column) out.old }
{
    if out.len() < 5 {
        return NO_NUMBERS;
    }
    tell(entry(profile, column), out)
}

// Where the names of a map stand in the event: 1, start and length, which may be 0; zeros where it has none. A map that is refused before
// its names is refused here.
#[tactic(auto, using(crate::proofs::Leaves::leaves))]
pub fn feed_names(event: &[u8], post_header: u8, dialect: u8, out: &mut [u64]) -> u64
    ensures value { result ≡ status_of 3 (feed_names event.now post_header dialect) out.old }
    ensures out_after { out.new ≡ numbers_left 3 (feed_names event.now post_header dialect) out.old }
{
    if out.len() < 3 {
        return NO_NUMBERS;
    }
    tell(names(event, post_header, dialect), out)
}

// Where the name of a column stands, start and length, in the list that applies: the map's names if they are not empty, else the
// operator's.
#[tactic(auto, using(crate::proofs::Leaves::leaves))]
pub fn feed_name<'a>(names: &'a [u8], operator: &'a [u8], column: usize, out: &mut [u64]) -> u64
    ensures value { result ≡ status_of 2 (feed_name names.now operator.now column) out.old }
    ensures out_after { out.new ≡ numbers_left 2 (feed_name names.now operator.now column) out.old }
{
    if out.len() < 2 {
        return NO_NUMBERS;
    }
    tell(name(names, operator, column), out)
}
