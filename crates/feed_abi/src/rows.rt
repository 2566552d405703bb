// Row images, read and written.
ghost use Rattle.std.specs.Prelude.{◌≡◌, true};
ghost use Rattle.wire.specs.Stored.{answer_of, left_of};
ghost use Rattle.value_parts.specs.Parts.{sort_of, parts_of, is_held};
ghost use Rattle.image.specs.Split.{cursor, step_from};
ghost use Rattle.feed_abi.specs.Answers.{status_of, numbers_left, bytes_left};
ghost use Rattle.feed_abi.specs.Calls.{cursor_numbers, step_numbers, told_numbers, Held, feed_first, feed_step, feed_start, feed_put, feed_room};

use crate::answer::{NO_NUMBERS, joined, tell};
use image::{Cursor, Step};
use value::Value;
use value_parts::{parts_of, sort_of, value_of};
use wire::Refusal;

fn cursor_numbers(at: Cursor) -> [u64; 2]
    ensures { result ≡ cursor_numbers at }
{
    [at.column as u64, at.offset as u64]
}

#[tactic(auto, unfolding(crate::specs::Calls::feed_first))]
fn first(profile: &[u8], presence: &[u8]) -> Result<[u64; 2], Refusal>
    ensures { result ≡ feed_first profile.now presence.now }
{
    let at = image::first_cursor(profile, presence)?;
    Ok(cursor_numbers(at))
}

// A column's value, NULL too.
fn value_numbers(column: usize, value: Value, next: Cursor) -> [u64; 11]
    ensures value { result ≡ step_numbers (sort_of value) column next (parts_of value) }
    ensures held { is_held value ≡ true }
{
    let front = [
        sort_of(value),
        column as u64,
        next.column as u64,
        next.offset as u64,
    ];
    joined(front, parts_of(value))
}

// The end of an image has no column, and tells the bytes used.
#[tactic(auto, unfolding(crate::specs::Calls::told_numbers))]
fn step_numbers(step: Step<Cursor>) -> [u64; 11]
    ensures value { result ≡ told_numbers step }
    ensures held { Held (Ok step) }
{
    match step {
        Step::Null { column, next } => value_numbers(column, Value::Null, next),
        Step::Value {
            column,
            value,
            next,
        } => value_numbers(column, value, next),
        Step::End { used } => [0, 0, 0, used as u64, 0, 0, 0, 0, 0, 0, 0],
    }
}

#[tactic(auto, unfolding(crate::specs::Calls::feed_step))]
fn step(
    profile: &[u8],
    presence: &[u8],
    image: &[u8],
    column: usize,
    offset: usize,
) -> Result<[u64; 11], Refusal>
    ensures value { result ≡ feed_step profile.now presence.now image.now column offset }
    ensures held { Held (step_from profile.now presence.now image.now (cursor column offset)) }
{
    let at = Cursor { column, offset };
    let step = at.step(profile, presence, image)?;
    Ok(step_numbers(step))
}

#[tactic(auto, unfolding(crate::specs::Calls::feed_start))]
fn start(
    profile: &[u8],
    presence: &[u8],
    nulls: &[u8],
    image: &mut [u8],
) -> Result<[u64; 2], Refusal>
    ensures value { result ≡ answer_of (feed_start profile.now presence.now nulls.now image.old) }
    ensures image_after { image.new
        ≡ left_of (feed_start profile.now presence.now nulls.now image.old) image.old }
{
    let at = image::start(profile, presence, nulls, image)?;
    Ok(cursor_numbers(at))
}

#[tactic(auto, unfolding(crate::specs::Calls::feed_put))]
fn put(
    profile: &[u8],
    presence: &[u8],
    nulls: &[u8],
    at: Cursor,
    sort: u64,
    parts: &[u64],
    lent: &[u8],
    image: &mut [u8],
) -> Result<[u64; 2], Refusal>
    ensures value { result
        ≡ answer_of (feed_put profile.now presence.now nulls.now at.column at.offset sort parts.now
        lent.now image.old) }
    ensures image_after { image.new
        ≡ left_of (feed_put profile.now presence.now nulls.now at.column at.offset sort parts.now
        lent.now image.old) image.old }
{
    let value = value_of(sort, parts)?;
    let next = at.put(profile, presence, nulls, value, lent, image)?;
    Ok(cursor_numbers(next))
}

#[tactic(auto, unfolding(crate::specs::Calls::feed_room))]
fn room(profile: &[u8], presence: &[u8]) -> Result<[u64; 2], Refusal>
    ensures { result ≡ feed_room profile.now presence.now }
{
    let bytes = image::image_room(profile, presence)?;
    Ok([bytes, 0])
}

// The cursor that a walk begins with: column and offset.
#[tactic(auto, using(crate::proofs::Leaves::leaves))]
pub fn feed_first(profile: &[u8], presence: &[u8], out: &mut [u64]) -> u64
    ensures value { result ≡ status_of 2 (feed_first profile.now presence.now) out.old }
    ensures out_after { out.new ≡ numbers_left 2 (feed_first profile.now presence.now) out.old }
{
    if out.len() < 2 {
        return NO_NUMBERS;
    }
    tell(first(profile, presence), out)
}

// One step over an image, from any cursor: sort, column, next column, next offset, and the seven parts of the value.
#[tactic(auto, using(crate::proofs::Leaves::leaves))]
pub fn feed_step(
    profile: &[u8],
    presence: &[u8],
    image: &[u8],
    column: usize,
    offset: usize,
    out: &mut [u64],
) -> u64
    ensures value { result ≡ status_of 11 (feed_step profile.now presence.now image.now column offset)
        out.old }
    ensures out_after { out.new
        ≡ numbers_left 11 (feed_step profile.now presence.now image.now column offset) out.old }
    ensures held { result ≡ 0
        → Held (step_from profile.now presence.now image.now (cursor column offset)) }
{
    if out.len() < 11 {
        return NO_NUMBERS;
    }
    tell(step(profile, presence, image, column, offset), out)
}

// Stores the null bits of an image: the cursor of its first value.
#[tactic(auto, using(crate::proofs::Leaves::leaves))]
pub fn feed_start(
    profile: &[u8],
    presence: &[u8],
    nulls: &[u8],
    image: &mut [u8],
    out: &mut [u64],
) -> u64
    ensures value { result
        ≡ status_of 2 (answer_of (feed_start profile.now presence.now nulls.now image.old))
        out.old }
    ensures out_after { out.new
        ≡ numbers_left 2 (answer_of (feed_start profile.now presence.now nulls.now image.old))
        out.old }
    ensures image_after { image.new
        ≡ bytes_left 2 (feed_start profile.now presence.now nulls.now image.old)
        out.old image.old }
{
    // Before anything is written to the image.
    if out.len() < 2 {
        return NO_NUMBERS;
    }
    tell(start(profile, presence, nulls, image), out)
}

// Stores one value, or nothing for NULL, at a cursor: the cursor of the next.
#[tactic(auto, using(crate::proofs::Leaves::leaves))]
pub fn feed_put(
    profile: &[u8],
    presence: &[u8],
    nulls: &[u8],
    column: usize,
    offset: usize,
    sort: u64,
    parts: &[u64],
    lent: &[u8],
    image: &mut [u8],
    out: &mut [u64],
) -> u64
    ensures value { result
        ≡ status_of 2 (answer_of (feed_put profile.now presence.now nulls.now column offset sort
        parts.now lent.now image.old)) out.old }
    ensures out_after { out.new
        ≡ numbers_left 2 (answer_of (feed_put profile.now presence.now nulls.now column offset sort
        parts.now lent.now image.old)) out.old }
    ensures image_after { image.new
        ≡ bytes_left 2 (feed_put profile.now presence.now nulls.now column offset sort
        parts.now lent.now image.old) out.old image.old }
{
    // Before anything is written to the image.
    if out.len() < 2 {
        return NO_NUMBERS;
    }
    let at = Cursor { column, offset };
    tell(
        put(profile, presence, nulls, at, sort, parts, lent, image),
        out,
    )
}

// The most bytes that an image can take, and 0.
#[tactic(auto, using(crate::proofs::Leaves::leaves))]
pub fn feed_room(profile: &[u8], presence: &[u8], out: &mut [u64]) -> u64
    ensures value { result ≡ status_of 2 (feed_room profile.now presence.now) out.old }
    ensures out_after { out.new ≡ numbers_left 2 (feed_room profile.now presence.now) out.old }
{
    if out.len() < 2 {
        return NO_NUMBERS;
    }
    tell(room(profile, presence), out)
}
