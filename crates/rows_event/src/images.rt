// The images of a rows event, one after the other.
ghost use Rattle.std.specs.Prelude.{◌≡◌, true, ◌&&◌};
ghost use Rattle.record.specs.Records.{record_valid};
ghost use Rattle.rows_event.specs.Images.{in_pairs, set_of, is_empty, next_image};

use crate::event::Rows;
use wire::refusal::IMAGE_SHORT;
use wire::{Part, Refusal};

// Where the walk over the images stands: an offset of the event, and whether the image there stands under the second set.
// A walk begins with `Images { at: rows.images, second: false }`.
#[derive(Clone, Copy, Debug, PartialEq, Eq)]
pub struct Images {
    pub at: usize,
    pub second: bool,
}

// An image as a part of the event, and under which set it stands.
#[derive(Clone, Copy, Debug, PartialEq, Eq)]
pub struct Image {
    pub part: Part,
    pub second: bool,
}

// The presence bits that an image stands under: the first set, or the second, which is empty where there is none.
pub fn set_of(rows: Rows, event: &[u8], second: bool) -> &[u8]
    ensures { result.now ≡ set_of rows event.now second }
{
    if !second {
        return wire::part_of(event, rows.before);
    }
    match rows.after {
        Some(bits) => wire::part_of(event, bits),
        None => &event[..0],
    }
}

// Whether neither set has a column of the record present. Spare bits may be set: they count for nothing.
#[tactic(auto, using(wire::proofs::Rules::tests, record::proofs::Valid::read_valid), unfolding(crate::specs::Images::is_empty, record::specs::Records::read_record))]
fn is_empty(profile: &[u8], rows: Rows, event: &[u8]) -> bool
    requires { record_valid profile.now ≡ true }
    ensures { result ≡ is_empty profile.now rows event.now }
{
    let Ok(columns) = record::read_record(profile) else {
        // The record is valid.
        unreachable!()
    };
    image::count_bits(set_of(rows, event, false), columns) == 0
        && image::count_bits(set_of(rows, event, true), columns) == 0
}

// Whether an image stands under the second set: only where there is one.
fn is_second(rows: Rows, second: bool) -> bool
    ensures { result ≡ (in_pairs rows && second) }
{
    rows.after.is_some() && second
}

impl Images {
    // The image at this cursor and the cursor behind it, or none at the end. A made-up cursor obeys the same rule, and so do made-up rows.
    #[tactic(auto, using(wire::proofs::Rules::tests), unfolding(crate::specs::Images::next_image))]
    pub fn next(
        self,
        rows: Rows,
        profile: &[u8],
        event: &[u8],
    ) -> Result<Option<(Image, Images)>, Refusal>
        ensures { result ≡ next_image profile.now rows event.now self }
    {
        if event.len() < self.at {
            return Err(wire::refuse(IMAGE_SHORT, 0));
        }
        let second = is_second(rows, self.second);
        if self.at == event.len() && !second {
            return Ok(None);
        }
        let used = image::walk_end(profile, set_of(rows, event, second), &event[self.at..])?;
        // Where no set has a column the image takes no bytes, so what there is is left over.
        if used == 0 && is_empty(profile, rows, event) {
            return Err(wire::refuse(IMAGE_SHORT, 0));
        }
        let part = Part {
            start: self.at,
            len: used,
        };
        let next = Images {
            at: self.at + used,
            second: is_second(rows, !second),
        };
        Ok(Some((Image { part, second }, next)))
    }
}
