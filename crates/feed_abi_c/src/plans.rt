ghost use Rattle.std.specs.Prelude.{◌≡◌};
ghost use Rattle.wire.specs.Stored.{answer_of};
ghost use Rattle.feed_abi.specs.Answers.{status_of, numbers_left, bytes_left};
ghost use Rattle.feed_abi.specs.Calls.{feed_plan, feed_run, feed_put_item};

// Makes the plan of a record and presence bits at the start of plan: its length, and how many items it has, one for each present column.
#[unsafe(no_mangle)]
pub extern "C" fn feed_plan(
    profile: &[u8],
    presence: &[u8],
    plan: &mut [u8],
    out: &mut [u64],
) -> u64
    ensures value { result ≡ status_of 2 (answer_of (feed_plan profile.now presence.now plan.old))
        out.old }
    ensures out_after { out.new
        ≡ numbers_left 2 (answer_of (feed_plan profile.now presence.now plan.old)) out.old }
    ensures plan_after { plan.new
        ≡ bytes_left 2 (feed_plan profile.now presence.now plan.old) out.old
        plan.old }
{
    feed_abi::feed_plan(profile, presence, plan, out)
}

// Many values at once, by any plan, from any cursor, through images laid end to end: how many were stored in values, eight numbers each,
// and the cursor of the next, start, item and offset.
#[unsafe(no_mangle)]
pub extern "C" fn feed_run(
    plan: &[u8],
    images: &[u8],
    start: usize,
    item: usize,
    offset: usize,
    values: &mut [u64],
    out: &mut [u64],
) -> u64
    ensures value { result
        ≡ status_of 4 (answer_of (feed_run plan.now images.now start item offset values.old))
        out.old }
    ensures out_after { out.new
        ≡ numbers_left 4 (answer_of (feed_run plan.now images.now start item offset values.old))
        out.old }
    ensures values_after { values.new
        ≡ bytes_left 4 (feed_run plan.now images.now start item offset values.old)
        out.old values.old }
{
    feed_abi::feed_run(plan, images, start, item, offset, values, out)
}

// Stores one value, or nothing for NULL, for an item of any plan: the next item, and where its value goes.
#[unsafe(no_mangle)]
pub extern "C" fn feed_put_item(
    plan: &[u8],
    nulls: &[u8],
    item: usize,
    offset: usize,
    sort: u64,
    parts: &[u64],
    lent: &[u8],
    image: &mut [u8],
    out: &mut [u64],
) -> u64
    ensures value { result
        ≡ status_of 2 (answer_of (feed_put_item plan.now nulls.now item offset sort parts.now
        lent.now image.old)) out.old }
    ensures out_after { out.new
        ≡ numbers_left 2 (answer_of (feed_put_item plan.now nulls.now item offset sort parts.now
        lent.now image.old)) out.old }
    ensures image_after { image.new
        ≡ bytes_left 2 (feed_put_item plan.now nulls.now item offset sort parts.now
        lent.now image.old) out.old image.old }
{
    feed_abi::feed_put_item(plan, nulls, item, offset, sort, parts, lent, image, out)
}
