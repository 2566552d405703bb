// The parts of a rows event in their order, whatever map they are for.
ghost use Rattle.std.specs.Prelude.{◌≡◌};
ghost use Rattle.rows_event.specs.Events.{extra_at, second_at, sets_at, read_sets, read_parts};

use crate::form::Form;
use wire::refusal::BAD_EXTRA;
use wire::{Part, Refusal};

// How many bytes the table id has, and how many the flags and the length of the extra data.
const ID_BYTES: usize = 6;

const SHORT_BYTES: usize = 2;

// Where the flags end.
const HEAD_BYTES: usize = 8;

// The column count, the sets of presence bits, and where the images begin.
#[derive(Clone, Copy)]
pub(crate) struct Sets {
    pub count: u64,
    pub before: Part,
    // the second set, which updates have
    pub after: Option<Part>,
    pub images: usize,
}

#[derive(Clone, Copy)]
pub(crate) struct RowsParts {
    pub id: u64,
    pub flags: u16,
    pub extra: Option<Part>,
    // where the column count stands
    pub counted: usize,
    pub sets: Sets,
}

// The extra data behind its length, which counts its own two bytes, if the form has it, and the place after it.
#[tactic(auto, using(wire::proofs::Rules::tests, wire::proofs::Parts::within_ok), unfolding(crate::specs::Events::extra_at, crate::specs::Events::extra_data))]
fn extra_at(has: bool, event: &[u8], at: usize) -> Result<(Option<Part>, usize), Refusal>
    ensures { result ≡ extra_at has event.now at }
{
    if !has {
        return Ok((None, at));
    }
    let (counted, _) = wire::read_fixed(event, at, SHORT_BYTES)?;
    let length = counted as usize;
    if length < SHORT_BYTES {
        return Err(wire::refuse(BAD_EXTRA, at));
    }
    let next = wire::within(event, at, length, at)?;
    let start = at + SHORT_BYTES;
    let len = length - SHORT_BYTES;
    Ok((Some(Part { start, len }), next))
}

// A second set of so many bytes, if the form has it, and the place after it.
#[tactic(auto, unfolding(crate::specs::Events::second_at, crate::specs::Events::second_set))]
fn second_at(
    has: bool,
    bytes: usize,
    event: &[u8],
    at: usize,
) -> Result<(Option<Part>, usize), Refusal>
    ensures { result ≡ second_at has bytes event.now at }
{
    if !has {
        return Ok((None, at));
    }
    let next = wire::within(event, at, bytes, at)?;
    let set = Part {
        start: at,
        len: bytes,
    };
    Ok((Some(set), next))
}

// The sets for so many columns: the count is believed only as far as the bytes go.
#[tactic(auto, unfolding(crate::specs::Events::sets_at))]
fn sets_at(second: bool, count: u64, event: &[u8], at: usize) -> Result<Sets, Refusal>
    ensures { result ≡ sets_at second count event.now at }
{
    let bytes = wire::bytes_for(count as usize);
    let behind = wire::within(event, at, bytes, at)?;
    let (after, images) = second_at(second, bytes, event, behind)?;
    Ok(Sets {
        count,
        before: Part {
            start: at,
            len: bytes,
        },
        after,
        images,
    })
}

// The column count, and the sets behind it.
#[tactic(auto, unfolding(crate::specs::Events::read_sets))]
fn read_sets(second: bool, event: &[u8], at: usize) -> Result<Sets, Refusal>
    ensures { result ≡ read_sets second event.now at }
{
    let (count, next) = wire::read_packed(event, at)?;
    sets_at(second, count, event, next)
}

// All parts, in both editions by one rule.
#[tactic(auto, unfolding(crate::specs::Events::read_parts))]
pub(crate) fn read_parts(form: Form, event: &[u8]) -> Result<RowsParts, Refusal>
    ensures { result ≡ read_parts form event.now }
{
    let (id, _) = wire::read_fixed(event, 0, ID_BYTES)?;
    let (flags, _) = wire::read_fixed(event, ID_BYTES, SHORT_BYTES)?;
    let (extra, counted) = extra_at(form.extra, event, HEAD_BYTES)?;
    let sets = read_sets(form.second, event, counted)?;
    Ok(RowsParts {
        id,
        flags: flags as u16,
        extra,
        counted,
        sets,
    })
}
