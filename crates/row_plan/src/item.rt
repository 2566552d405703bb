// One item of a plan in an image, whose value is read fast or as everywhere.
ghost use Rattle.std.specs.Prelude.{◌≡◌, ◌+◌, ◌*◌, ◌/◌, ◌≤◌, ◌<◌, ◌^◌, length};
ghost use Rattle.wire.specs.Bits.{bit_lsb0};
ghost use Rattle.row_plan.specs.Inner.Numbers.{item_numbers};
ghost use Rattle.row_plan.specs.Inner.Fast.{TookItem};

use crate::fast::take_op;
use crate::make::ITEM_BYTES;
use crate::numbers::{Numbers, number_op, one};
use crate::row::column_at;
use value_parts::sort::NULL;
use wire::Refusal;

// The plan has the item, and the image its null bit.
#[derive(Clone, Copy)]
pub(crate) struct Item<'a> {
    pub(crate) plan: &'a [u8],
    pub(crate) image: &'a [u8],
    pub(crate) index: usize,
    pub(crate) ghost planned: { 3 * index + 3 ≤ length plan.now },
    pub(crate) ghost marked: { index / 8 < length image.now },
}

impl Item<'_> {
    // Whether it is NULL. Its bit is there, so that no item tests that again.
    #[tactic(auto, unfolding(wire::specs::Bits::bit_lsb0))]
    fn is_null(self) -> bool
        ensures { result ≡ bit_lsb0 self.entry.image.now self.entry.index }
    {
        (self.image[self.index / 8] >> (self.index % 8)) % 2 == 1
    }

    // The numbers of its value, which starts at an offset, and the offset after it. The image starts at `by` among the images.
    #[tactic(auto, using(crate::proofs::RunLaws::item_null, crate::proofs::RunLaws::item_read), unfolding(crate::specs::Runs::value_numbers))]
    pub(crate) fn numbers(self, by: usize, offset: usize) -> Result<(Numbers, usize), Refusal>
        requires offset_in_bounds { offset ≤ length self.image.now }
        requires image_bound { by + length self.image.now < 2 ^ 64 }
        ensures { let i = self.entry in result ≡ item_numbers i.plan.now i.image.now by i.index offset }
    {
        if self.is_null() {
            return Ok((one(NULL, 0), offset));
        }
        let at = ITEM_BYTES * self.index;
        number_op(
            self.plan[at],
            self.image,
            offset,
            column_at(self.plan, at),
            by,
        )
    }

    // Its value read fast into the room of one: how many bytes it takes, NULL none, unless it is left.
    #[tactic(auto, using(crate::proofs::RunLaws::took_null, crate::proofs::RunLaws::took_read))]
    pub(crate) fn take(self, offset: usize, room: &mut [u64]) -> Option<usize>
        requires { (offset + 8 ≤ length self.image.now) × (length room.old ≡ 8) }
        ensures { let i = self.entry in TookItem i.plan.now i.image.now i.index offset room.old room.new result }
    {
        let Some(slot) = room.as_mut_array() else {
            unreachable!()
        };
        if self.is_null() {
            *slot = one(NULL, 0);
            return Some(0);
        }
        let Some(bytes) = self.image[offset..offset + 8].as_array() else {
            unreachable!()
        };
        take_op(self.plan[ITEM_BYTES * self.index], bytes, slot)
    }
}
