// The whole record: whether it is valid, what it says of its columns, and how it begins. `profile` is its bytes.
ghost use Rattle.std.specs.Prelude.{◌≡◌};
ghost use Rattle.wire.specs.Stored.{store, answer_of, left_of};
ghost use Rattle.record.specs.Records.{kind_for, count_of, entry_place, entry_in, entries_hold, head_holds, read_record};
ghost use Rattle.record.specs.Records.{head_bytes};

use crate::entry::{Entry, entry_holds};
use wire::Refusal;
use wire::refusal::BAD_RECORD;

// How many columns a record may have.
pub const MOST_COLUMNS: usize = 4096;

// How many a record of kind 1 may have: as many as a byte counts.
const MOST_KIND_1: usize = 255;

// The bytes before the entries, and those of an entry.
const HEAD: usize = 6;

const ENTRY: usize = 6;

// The longest record.
pub const MOST_BYTES: usize = HEAD + ENTRY * MOST_COLUMNS;

// How many columns the record says it has.
#[tactic(auto, unfolding(crate::specs::Records::count_of))]
fn count_in(profile: &[u8]) -> usize
    ensures { result ≡ count_of profile.now }
{
    wire::read_le(profile, 4, 2) as usize
}

// The kind of a record of n columns: a number, as it is a byte of the record.
#[tactic(auto, using(wire::proofs::Rules::tests), unfolding(crate::specs::Records::kind_for))]
fn kind_for(n: usize) -> u8
    ensures { result ≡ kind_for n }
{
    if n <= MOST_KIND_1 { 1 } else { 2 }
}

// Where the entry of a column stands. A place that fits no machine number is told as the greatest one, where no slice has a byte either, so
// that callers need no test of their own.
#[tactic(auto, using(wire::proofs::Rules::tests), unfolding(crate::specs::Records::entry_place))]
pub fn entry_at(column: usize) -> usize
    ensures { result ≡ entry_place column }
{
    column.saturating_mul(ENTRY).saturating_add(HEAD)
}

// What the record says of a column; what lies past its end counts as zeros.
pub fn entry_in(profile: &[u8], column: usize) -> Entry
    ensures { result ≡ entry_in profile.now column }
{
    let bytes = wire::read_le(profile, entry_at(column), ENTRY).to_le_bytes();
    let [real, flags, m0, m1, low, high, ..] = bytes;
    Entry {
        real,
        flags,
        m0,
        m1,
        charset: u16::from_le_bytes([low, high]),
    }
}

// Whether each of the first n entries is one that a record may have.
fn entries_hold(profile: &[u8], n: usize) -> bool
    ensures { result ≡ entries_hold n profile.now 0 }
{
    (0..n).all(|j| entry_holds(entry_in(profile, j)))
}

// Whether the six bytes before the columns fit the rest.
#[tactic(auto, using(wire::proofs::Rules::tests, crate::proofs::Places::place_few), unfolding(crate::specs::Records::head_holds))]
fn head_holds(profile: &[u8]) -> bool
    ensures { result ≡ head_holds profile.now }
{
    let columns = count_in(profile);
    HEAD <= profile.len()
        && wire::read_le(profile, 0, 2) == profile.len() as u64
        && wire::read_le(profile, 2, 2) == u64::from(kind_for(columns))
        && columns <= MOST_COLUMNS
        && profile.len() == entry_at(columns)
}

// How many columns the record has, if it is valid and nothing stands after it; in one pass over it.
#[tactic(auto, unfolding(crate::specs::Records::read_record, crate::specs::Records::record_valid))]
pub fn read_record(profile: &[u8]) -> Result<usize, Refusal>
    ensures { result ≡ read_record profile.now }
{
    let columns = count_in(profile);
    if head_holds(profile) && entries_hold(profile, columns) {
        return Ok(columns);
    }
    Err(wire::refuse(BAD_RECORD, 0))
}

// Writes the six bytes before the columns, at the buffer's start.
pub fn write_head(n: u16, buf: &mut [u8]) -> Result<usize, Refusal>
    ensures result_value { result ≡ answer_of (store (head_bytes n) buf.old 0) }
    ensures buf_after { buf.new ≡ left_of (store (head_bytes n) buf.old 0) buf.old }
{
    let columns = usize::from(n);
    let [size_low, size_high, ..] = entry_at(columns).to_le_bytes();
    let [low, high] = n.to_le_bytes();
    let bytes = [size_low, size_high, kind_for(columns), 0, low, high];
    wire::write_bytes(&bytes, buf, 0)
}
