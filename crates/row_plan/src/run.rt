// Many values read by a plan at once, as numbers: for C, and for whoever reads in batches.
ghost use Rattle.std.specs.Prelude.{◌≡◌, ◌+◌, ◌-◌, ◌*◌, ◌/◌, ◌≤◌, ◌<◌, ◌^◌, length};
ghost use Rattle.wire.specs.Stored.{stored, answer_of, left_of};
ghost use Rattle.row_plan.specs.Runs.{turned, is_over, run_from, read_run};
ghost use Rattle.row_plan.specs.Inner.Paused.{paused_run, Further, Stands, Running, stop_answer};

use crate::item::Item;
use crate::make::ITEM_BYTES;
use crate::numbers::{Numbers, VALUE_NUMBERS};
use crate::row::{RowCursor, test_image};
use wire::Refusal;
use wire::refusal::NO_ROOM;

// Where a run left an image: at its end or at that of the room, or at a value that is refused.
#[derive(Clone, Copy)]
pub(crate) struct Paused {
    pub(crate) values: usize,
    pub(crate) next: RowCursor,
    pub(crate) stop: Result<(), Refusal>,
}

// How far an image was read fast: how many values are stored, and where the next stands.
#[derive(Clone, Copy)]
pub(crate) struct Reached {
    pub(crate) values: usize,
    pub(crate) item: usize,
    pub(crate) offset: usize,
}

// The numbers of a value, stored where there is room for just them. An array is stored as a whole: the compiler makes plain stores of it, and
// a loop of `copy_from_slice`, which costs a tenth more for each integer.
fn put(numbers: Numbers, room: &mut [u64])
    requires { length room.old ≡ 8 }
    ensures { room.new ≡ numbers }
{
    let Some(slot) = room.as_mut_array() else {
        unreachable!()
    };
    *slot = numbers;
}

// From an item of an image on, as far as values are read fast: to a value that is left, to the image's end, to that of the room, or to
// where eight bytes for each value might not be there. So no value tests what is left of the images. Here and in run_image the parameters stay
// seven: a struct of them would be made and taken apart once for each run of values. `items` and `room` stand beside the plan and out, so that the
// lengths of these are divided once a call and not once an image.
fn take_items(
    here: RowCursor,
    plan: &[u8],
    images: &[u8],
    items: usize,
    room: usize,
    had: usize,
    out: &mut [u64],
) -> Reached
    requires stands { Stands plan.now images.now items here }
    requires had_lt_room { (had < room) × (8 * room ≤ length out.old) }
    ensures { Running plan.now images.now items room had out.old here out.new result.item
        result.offset result.values }
{
    let image = &images[here.start..];
    let mut offset = here.offset;
    let mut values = had;
    let eights = (image.len() - offset) / 8;
    let limit = here.item + (items - here.item).min(room - values).min(eights);
    let mut item = here.item;
    // What a value takes moves the offset. A `for` over the items was tried: with it a value of bytes costs a twentieth more.
    while item < limit {
        let to = VALUE_NUMBERS * values;
        let it = Item {
            plan,
            image,
            index: item,
        };
        let Some(n) = it.take(offset, &mut out[to..to + VALUE_NUMBERS]) else {
            return Reached {
                values,
                item,
                offset,
            };
        };
        offset += n;
        item += 1;
        values += 1;
    }
    Reached {
        values,
        item,
        offset,
    }
}

// From an item of an image on, to the image's end, to that of the room, or to a value that is refused: values are read fast, and what is
// left is read as everywhere. The image was tested before, so that each value costs its own bytes alone.
fn run_image(
    here: RowCursor,
    plan: &[u8],
    images: &[u8],
    items: usize,
    room: usize,
    had: usize,
    out: &mut [u64],
) -> Paused
    requires stands { Stands plan.now images.now items here }
    requires had_lt_room { (had < room) × (8 * room ≤ length out.old) }
    ensures result_after { paused_run room plan.now images.now out.new result
        ≡ run_from (room - had) plan.now images.now here had out.old }
    ensures further { Further had room result }
{
    let start = here.start;
    let image = &images[start..];
    let mut at = here;
    let mut values = had;
    // A walk: each turn goes on from where the last one came to, and stores as many values as it comes to.
    while values < room {
        if at.item == items {
            return Paused {
                values,
                next: at,
                stop: Ok(()),
            };
        }
        let far = take_items(at, plan, images, items, room, values, out);
        values = far.values;
        at = RowCursor {
            start,
            item: far.item,
            offset: far.offset,
        };
        if far.item == items || far.values == room {
            continue;
        }
        let it = Item {
            plan,
            image,
            index: far.item,
        };
        let (numbers, next) = match it.numbers(start, far.offset) {
            Ok(read) => read,
            Err(why) => {
                return Paused {
                    values,
                    next: at,
                    stop: Err(why),
                };
            }
        };
        let to = VALUE_NUMBERS * far.values;
        put(numbers, &mut out[to..to + VALUE_NUMBERS]);
        at = RowCursor {
            start,
            item: far.item + 1,
            offset: next,
        };
        values += 1;
    }
    Paused {
        values,
        next: at,
        stop: Ok(()),
    }
}

// Behind the last item of an image stands the next image.
#[tactic(auto, using(wire::proofs::Rules::tests, crate::proofs::RunLaws::turn_past, crate::proofs::RunLaws::turn_next), unfolding(crate::specs::Runs::turned))]
fn turned(c: RowCursor, plan: &[u8], images: &[u8]) -> RowCursor
    ensures { result ≡ turned plan.now images.now c }
{
    let items = plan.len() / ITEM_BYTES;
    if c.item != items || images.len().saturating_sub(c.start) < c.offset {
        return c;
    }
    RowCursor {
        start: c.start + c.offset,
        item: 0,
        offset: wire::bytes_for(items),
    }
}

// Whether the images end where the next would begin.
#[tactic(auto, using(wire::proofs::Rules::tests), unfolding(crate::specs::Runs::is_over))]
fn is_over(c: RowCursor, images: &[u8]) -> bool
    ensures { result ≡ is_over images.now c }
{
    c.item == 0 && c.start == images.len()
}

// A run that met a refusal: told only if no value stands before it.
fn stopped(values: usize, next: RowCursor, why: Refusal) -> Result<(usize, RowCursor), Refusal>
    ensures { result ≡ stop_answer values next why }
{
    if values == 0 {
        return Err(why);
    }
    Ok((values, next))
}

impl RowCursor {
    // Stores as many values as out holds, each as its sort and seven parts, from this cursor on, through images laid end to end. It stops
    // at the room, at the end of the images, or before a value that is refused; it refuses only if that is the first. It answers how many
    // values were stored, and the cursor of the next.
    #[tactic(auto, using(crate::proofs::ReadLaws::read_stands, crate::proofs::ReadLaws::read_enter, crate::proofs::ReadLaws::told_full))]
    pub fn read(
        self,
        plan: &[u8],
        images: &[u8],
        out: &mut [u64],
    ) -> Result<(usize, RowCursor), Refusal>
        ensures result_value { result ≡ answer_of (read_run plan.now images.now self out.old) }
        ensures out_after { out.new
            ≡ left_of (read_run plan.now images.now self out.old) out.old }
    {
        if out.len() < VALUE_NUMBERS {
            return Err(wire::refuse(NO_ROOM, 0));
        }
        let items = plan.len() / ITEM_BYTES;
        let room = out.len() / VALUE_NUMBERS;
        let mut at = self;
        let mut values = 0;
        // Image after image: each turn goes on from where the last one came to.
        while values < room {
            let here = turned(at, plan, images);
            if is_over(here, images) {
                return Ok((values, here));
            }
            if let Err(why) = test_image(here, items, images.len().saturating_sub(here.start)) {
                return stopped(values, here, why);
            }
            if here.item == items {
                return Ok((values, here));
            }
            let paused = run_image(here, plan, images, items, room, values, out);
            if let Err(why) = paused.stop {
                return stopped(paused.values, paused.next, why);
            }
            values = paused.values;
            at = paused.next;
        }
        Ok((values, at))
    }
}
