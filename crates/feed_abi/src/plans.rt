// Rows read and written by a plan.
ghost use Rattle.std.specs.Prelude.{◌≡◌};
ghost use Rattle.wire.specs.Stored.{answer_of, left_of};
ghost use Rattle.feed_abi.specs.Answers.{status_of, numbers_left, bytes_left};
ghost use Rattle.feed_abi.specs.Calls.{feed_plan, feed_run, feed_put_item};

use crate::answer::{NO_NUMBERS, tell};
use row_plan::{ItemCursor, RowCursor};
use value_parts::value_of;
use wire::Refusal;

#[tactic(auto, unfolding(crate::specs::Calls::feed_plan))]
fn make(profile: &[u8], presence: &[u8], plan: &mut [u8]) -> Result<[u64; 2], Refusal>
    ensures value { result ≡ answer_of (feed_plan profile.now presence.now plan.old) }
    ensures plan_after { plan.new ≡ left_of (feed_plan profile.now presence.now plan.old) plan.old }
{
    let (len, items) = row_plan::make_plan(profile, presence, plan)?;
    Ok([len as u64, items as u64])
}

#[tactic(auto, unfolding(crate::specs::Calls::feed_run))]
fn run(
    plan: &[u8],
    images: &[u8],
    start: usize,
    item: usize,
    offset: usize,
    values: &mut [u64],
) -> Result<[u64; 4], Refusal>
    ensures value { result ≡ answer_of (feed_run plan.now images.now start item offset values.old) }
    ensures values_after { values.new
        ≡ left_of (feed_run plan.now images.now start item offset values.old) values.old }
{
    let at = RowCursor {
        start,
        item,
        offset,
    };
    let (stored, next) = at.read(plan, images, values)?;
    Ok([
        stored as u64,
        next.start as u64,
        next.item as u64,
        next.offset as u64,
    ])
}

#[tactic(auto, unfolding(crate::specs::Calls::feed_put_item))]
fn put(
    plan: &[u8],
    nulls: &[u8],
    at: ItemCursor,
    sort: u64,
    parts: &[u64],
    lent: &[u8],
    image: &mut [u8],
) -> Result<[u64; 2], Refusal>
    ensures value { result
        ≡ answer_of (feed_put_item plan.now nulls.now at.item at.offset sort parts.now lent.now image.old) }
    ensures image_after { image.new
        ≡ left_of (feed_put_item plan.now nulls.now at.item at.offset sort parts.now lent.now
        image.old) image.old }
{
    let value = value_of(sort, parts)?;
    let next = at.put(plan, nulls, value, lent, image)?;
    Ok([next.item as u64, next.offset as u64])
}

// Makes the plan of a record and presence bits at the start of plan: its length, and how many items it has, one for each present column.
#[tactic(auto, using(crate::proofs::Leaves::leaves))]
pub fn feed_plan(profile: &[u8], presence: &[u8], plan: &mut [u8], out: &mut [u64]) -> u64
    ensures value { result ≡ status_of 2 (answer_of (feed_plan profile.now presence.now plan.old))
        out.old }
    ensures out_after { out.new
        ≡ numbers_left 2 (answer_of (feed_plan profile.now presence.now plan.old)) out.old }
    ensures plan_after { plan.new
        ≡ bytes_left 2 (feed_plan profile.now presence.now plan.old) out.old
        plan.old }
{
    // Before anything is written to the plan.
    if out.len() < 2 {
        return NO_NUMBERS;
    }
    tell(make(profile, presence, plan), out)
}

// Many values at once, by any plan, from any cursor, through images laid end to end: how many were stored in values, eight numbers each,
// and the cursor of the next, start, item and offset.
#[tactic(auto, using(crate::proofs::Leaves::leaves))]
pub fn feed_run(
    plan: &[u8],
    images: &[u8],
    start: usize,
    item: usize,
    offset: usize,
    values: &mut [u64],
    out: &mut [u64],
) -> u64
    ensures value { result
        ≡ status_of 4 (answer_of (feed_run plan.now images.now start item offset values.old))
        out.old }
    ensures out_after { out.new
        ≡ numbers_left 4 (answer_of (feed_run plan.now images.now start item offset values.old))
        out.old }
    ensures values_after { values.new
        ≡ bytes_left 4 (feed_run plan.now images.now start item offset values.old)
        out.old values.old }
{
    // Before anything is written to the values.
    if out.len() < 4 {
        return NO_NUMBERS;
    }
    tell(run(plan, images, start, item, offset, values), out)
}

// Stores one value, or nothing for NULL, for an item of any plan: the next item, and where its value goes.
#[tactic(auto, using(crate::proofs::Leaves::leaves))]
pub fn feed_put_item(
    plan: &[u8],
    nulls: &[u8],
    item: usize,
    offset: usize,
    sort: u64,
    parts: &[u64],
    lent: &[u8],
    image: &mut [u8],
    out: &mut [u64],
) -> u64
    ensures value { result
        ≡ status_of 2 (answer_of (feed_put_item plan.now nulls.now item offset sort parts.now
        lent.now image.old)) out.old }
    ensures out_after { out.new
        ≡ numbers_left 2 (answer_of (feed_put_item plan.now nulls.now item offset sort parts.now
        lent.now image.old)) out.old }
    ensures image_after { image.new
        ≡ bytes_left 2 (feed_put_item plan.now nulls.now item offset sort parts.now
        lent.now image.old) out.old image.old }
{
    // Before anything is written to the image.
    if out.len() < 2 {
        return NO_NUMBERS;
    }
    let at = ItemCursor { item, offset };
    tell(put(plan, nulls, at, sort, parts, lent, image), out)
}
