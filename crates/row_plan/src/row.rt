// A step by a plan.
ghost use Rattle.std.specs.Prelude.{◌≡◌, ◌+◌, ◌-◌, ◌≤◌, length, take, drop};
ghost use Rattle.wire.specs.Number.{le_value};
ghost use Rattle.row_plan.specs.Plan.{plan_step};
ghost use Rattle.row_plan.specs.Inner.Paused.{row_gate};

use crate::make::ITEM_BYTES;
use image::Step;
use wire::Refusal;
use wire::refusal::{IMAGE_SHORT, NO_COLUMN};

// Where this image starts among the images, which present column comes next, and where its value starts in the image.
#[derive(Clone, Copy, Debug, PartialEq, Eq)]
pub struct RowCursor {
    pub start: usize,
    pub item: usize,
    pub offset: usize,
}

// The column of the item at a place of the plan: the call of a reader of any width cost 40 instructions when it was measured.
#[tactic(auto, using(crate::proofs::Goes::two))]
pub(crate) fn column_at(plan: &[u8], at: usize) -> usize
    requires { at + 3 ≤ length plan.now }
    ensures { result ≡ le_value (take 2 (drop (at + 1) plan.now)) }
{
    usize::from(u16::from_le_bytes([plan[at + 1], plan[at + 2]]))
}

// The tests before the values of an image, of which so many bytes are left: refusals 14 and 9.
#[tactic(auto, using(wire::proofs::Rules::tests), unfolding(crate::specs::Inner::Paused::row_gate))]
pub(crate) fn test_image(c: RowCursor, items: usize, left: usize) -> Result<(), Refusal>
    ensures { result ≡ row_gate items left c }
{
    if items < c.item {
        return Err(wire::refuse(NO_COLUMN, c.item));
    }
    if left < wire::bytes_for(items) {
        return Err(wire::refuse(IMAGE_SHORT, 0));
    }
    if left < c.offset {
        return Err(wire::refuse(IMAGE_SHORT, c.item));
    }
    Ok(())
}

impl RowCursor {
    // The next item of the plan from this cursor on. Any plan and any cursor obey the same rule.
    #[tactic(auto, using(crate::proofs::RunLaws::gate_open))]
    pub fn step(self, plan: &[u8], images: &[u8]) -> Result<Step<RowCursor>, Refusal>
        ensures { result ≡ plan_step plan.now images.now self }
    {
        let start = self.start;
        let item = self.item;
        let offset = self.offset;
        let items = plan.len() / ITEM_BYTES;
        let image = &images[start.min(images.len())..];
        test_image(self, items, image.len())?;
        if item == items {
            return Ok(Step::End { used: offset });
        }
        let at = ITEM_BYTES * item;
        let column = column_at(plan, at);
        let behind = item + 1;
        if wire::bit_lsb0(image, item) {
            return Ok(Step::Null {
                column,
                next: RowCursor {
                    start,
                    item: behind,
                    offset,
                },
            });
        }
        let (value, next) = value::read_op(plan[at], image, offset, column)?;
        Ok(Step::Value {
            column,
            value,
            next: RowCursor {
                start,
                item: behind,
                offset: next,
            },
        })
    }
}
