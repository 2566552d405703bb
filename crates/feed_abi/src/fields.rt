// What a map says beside its record: its parts, its optional fields one after the other, and the lists in them.
ghost use Rattle.std.specs.Prelude.{◌≡◌};
ghost use Rattle.feed_abi.specs.Answers.{status_of, numbers_left};
ghost use Rattle.feed_abi.specs.Fields.{item_at, feed_parts, feed_fields, feed_field, feed_item};

use crate::answer::{NO_NUMBERS, tell};
use crate::maps::dialect_of;
use table_map::{Fields, next_item};
use wire::refusal::NOT_TAKEN;
use wire::{Part, Refusal};

// The lists that stand in optional fields. They stay numbers: callers in C pass them, and each is looked at once.
const INTEGERS: u64 = 1;

const PAIRS: u64 = 2;

const STRINGS: u64 = 3;

const GROUPS: u64 = 4;

#[tactic(auto, unfolding(crate::specs::Fields::feed_parts))]
fn parts(event: &[u8], post_header: u8) -> Result<[u64; 8], Refusal>
    ensures { result ≡ feed_parts event.now post_header }
{
    let map = table_map::read_event(event, post_header)?;
    Ok([
        map.types.start as u64,
        map.types.len as u64,
        map.metadata.start as u64,
        map.metadata.len as u64,
        map.bits.start as u64,
        map.bits.len as u64,
        map.optional.start as u64,
        map.optional.len as u64,
    ])
}

#[tactic(auto, unfolding(crate::specs::Fields::feed_fields))]
fn fields(event: &[u8], post_header: u8, dialect: u8) -> Result<[u64; 3], Refusal>
    ensures { result ≡ feed_fields event.now post_header dialect }
{
    let asked = dialect_of(dialect)?;
    let map = table_map::read_event(event, post_header)?;
    let fields = Fields::new(asked, wire::part_of(event, map.types), map.optional.start);
    Ok([
        fields.at as u64,
        fields.numeric as u64,
        fields.columns as u64,
    ])
}

#[tactic(auto, unfolding(crate::specs::Fields::feed_field))]
fn field(event: &[u8], offset: usize, numeric: usize, columns: usize) -> Result<[u64; 5], Refusal>
    ensures { result ≡ feed_field event.now offset numeric columns }
{
    let at = Fields {
        at: offset,
        numeric,
        columns,
    };
    let Some(((kind, value), next)) = at.next(event)? else {
        return Ok([0; 5]);
    };
    Ok([
        1,
        u64::from(kind),
        value.start as u64,
        value.len as u64,
        next.at as u64,
    ])
}

// The item at an offset of a list as two numbers, and where the next stands.
#[tactic(auto, unfolding(crate::specs::Fields::item_at))]
fn item_at(list: u64, value: &[u8], at: usize) -> Result<Option<((u64, u64), usize)>, Refusal>
    ensures { result ≡ item_at list value.now at }
{
    match list {
        INTEGERS => Ok(next_item::<u64>(value, at)?.map(|(n, next)| ((n, 0), next))),
        PAIRS => next_item::<(u64, u64)>(value, at),
        STRINGS => {
            let step = next_item::<Part>(value, at)?;
            Ok(step.map(|(part, next)| ((part.start as u64, part.len as u64), next)))
        }
        GROUPS => {
            let step = next_item::<(u64, usize)>(value, at)?;
            Ok(step.map(|((count, first), next)| ((count, first as u64), next)))
        }
        _ => Err(wire::refuse(NOT_TAKEN, 0)),
    }
}

#[tactic(auto, unfolding(crate::specs::Fields::feed_item))]
fn item(list: u64, value: &[u8], offset: usize) -> Result<[u64; 4], Refusal>
    ensures { result ≡ feed_item list value.now offset }
{
    let Some(((first, second), next)) = item_at(list, value, offset)? else {
        return Ok([0; 4]);
    };
    Ok([1, first, second, next as u64])
}

// The parts of a map that are bytes for its columns, start and length each: types, metadata, nullable bits, optional fields.
#[tactic(auto, using(crate::proofs::Leaves::leaves))]
pub fn feed_parts(event: &[u8], post_header: u8, out: &mut [u64]) -> u64
    ensures value { result ≡ status_of 8 (feed_parts event.now post_header) out.old }
    ensures out_after { out.new ≡ numbers_left 8 (feed_parts event.now post_header) out.old }
{
    if out.len() < 8 {
        return NO_NUMBERS;
    }
    tell(parts(event, post_header), out)
}

// The cursor that a walk over the optional fields begins with: where the first stands, how many columns have a signedness bit, and how many
// columns there are.
#[tactic(auto, using(crate::proofs::Leaves::leaves))]
pub fn feed_fields(event: &[u8], post_header: u8, dialect: u8, out: &mut [u64]) -> u64
    ensures value { result ≡ status_of 3 (feed_fields event.now post_header dialect) out.old }
    ensures out_after { out.new ≡ numbers_left 3 (feed_fields event.now post_header dialect) out.old }
{
    if out.len() < 3 {
        return NO_NUMBERS;
    }
    tell(fields(event, post_header, dialect), out)
}

// One step over the optional fields, from any cursor: 1, the field's type, start and length of its value, and where the next stands; or
// zeros for the end. The counts of the next cursor are the same.
#[tactic(auto, using(crate::proofs::Leaves::leaves))]
pub fn feed_field(
    event: &[u8],
    offset: usize,
    numeric: usize,
    columns: usize,
    out: &mut [u64],
) -> u64
    ensures value { result ≡ status_of 5 (feed_field event.now offset numeric columns) out.old }
    ensures out_after { out.new ≡ numbers_left 5 (feed_field event.now offset numeric columns) out.old }
{
    if out.len() < 5 {
        return NO_NUMBERS;
    }
    tell(field(event, offset, numeric, columns), out)
}

// One step over a list in the value of an optional field, from any offset: 1, two numbers for the item, and where the next stands; or zeros
// for the end. 13 for a list that there is not.
#[tactic(auto, using(crate::proofs::Leaves::leaves))]
pub fn feed_item(list: u64, value: &[u8], offset: usize, out: &mut [u64]) -> u64
    ensures value { result ≡ status_of 4 (feed_item list value.now offset) out.old }
    ensures out_after { out.new ≡ numbers_left 4 (feed_item list value.now offset) out.old }
{
    if out.len() < 4 {
        return NO_NUMBERS;
    }
    tell(item(list, value, offset), out)
}
