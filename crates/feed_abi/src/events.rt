// Rows events: their parts, and their images one after the other.
ghost use Rattle.std.specs.Prelude.{◌≡◌};
ghost use Rattle.rows_event.specs.Images.{next_image};
ghost use Rattle.feed_abi.specs.Answers.{status_of, numbers_left};
ghost use Rattle.feed_abi.specs.Calls.{said, second_asked, sets_asked, image_numbers, feed_rows, feed_image};

use crate::answer::{NO_NUMBERS, given_numbers, tell};
use rows_event::{Images, Rows};
use wire::{Part, Refusal};

#[tactic(auto, unfolding(crate::specs::Calls::feed_rows))]
fn rows(code: u64, profile: &[u8], table: u64, event: &[u8]) -> Result<[u64; 10], Refusal>
    ensures { result ≡ feed_rows code profile.now table event.now }
{
    let rows = rows_event::read_rows(code, profile, table, event)?;
    let [has_extra, extra_start, extra_len] = given_numbers(rows.extra);
    let [has_second, second_start, second_len] = given_numbers(rows.after);
    Ok([
        u64::from(rows.flags),
        has_extra,
        extra_start,
        extra_len,
        rows.before.start as u64,
        rows.before.len as u64,
        has_second,
        second_start,
        second_len,
        rows.images as u64,
    ])
}

// The second set that numbers ask for: 0 is none, and any other number one.
fn second_asked(there: u64, start: usize, len: usize) -> Option<Part>
    ensures { result ≡ second_asked there start len }
{
    match there {
        0 => None,
        _ => Some(Part { start, len }),
    }
}

// What a step over images looks at of an event that was read: its sets.
fn sets_asked(before: Part, after: Option<Part>) -> Rows
    ensures { result ≡ sets_asked before after }
{
    Rows {
        flags: 0,
        extra: None,
        before,
        after,
        images: 0,
    }
}

fn image(profile: &[u8], event: &[u8], rows: Rows, at: Images) -> Result<[u64; 6], Refusal>
    ensures { result ≡ said image_numbers (next_image profile.now rows event.now at) }
{
    let Some((image, next)) = at.next(rows, profile, event)? else {
        return Ok([0; 6]);
    };
    Ok([
        1,
        image.part.start as u64,
        image.part.len as u64,
        u64::from(image.second),
        next.at as u64,
        u64::from(next.second),
    ])
}

// The parts of a rows event of the code `code`, under the record and the table id of its map: flags; whether it has extra data, start,
// length; start and length of its presence bits; whether it has a second set, start, length; and where its images begin.
#[tactic(auto, using(crate::proofs::Leaves::leaves))]
pub fn feed_rows(code: u64, profile: &[u8], table: u64, event: &[u8], out: &mut [u64]) -> u64
    ensures value { result ≡ status_of 10 (feed_rows code profile.now table event.now) out.old }
    ensures out_after { out.new
        ≡ numbers_left 10 (feed_rows code profile.now table event.now) out.old }
{
    if out.len() < 10 {
        return NO_NUMBERS;
    }
    tell(rows(code, profile, table, event), out)
}

// One step over the images of a rows event, from any cursor, under any sets: 1, start, length, under which set it stands, and the next
// cursor; or zeros for the end.
#[tactic(auto, using(crate::proofs::Leaves::leaves), unfolding(crate::specs::Calls::feed_image))]
pub fn feed_image(
    profile: &[u8],
    event: &[u8],
    first_start: usize,
    first_length: usize,
    has_second: u64,
    second_start: usize,
    second_length: usize,
    offset: usize,
    second: u64,
    out: &mut [u64],
) -> u64
    ensures value { result
        ≡ status_of 6 (feed_image profile.now event.now first_start first_length has_second second_start
        second_length offset second) out.old }
    ensures out_after { out.new
        ≡ numbers_left 6 (feed_image profile.now event.now first_start first_length has_second second_start
        second_length offset second) out.old }
{
    if out.len() < 6 {
        return NO_NUMBERS;
    }
    let before = Part {
        start: first_start,
        len: first_length,
    };
    let after = second_asked(has_second, second_start, second_length);
    let at = Images {
        at: offset,
        second: second != 0,
    };
    tell(image(profile, event, sets_asked(before, after), at), out)
}
