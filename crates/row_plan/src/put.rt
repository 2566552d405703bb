// A value written by a plan: what image's step of writing does, for a cost that does not grow with the record.
ghost use Rattle.std.specs.Prelude.{◌≡◌};
ghost use Rattle.wire.specs.Stored.{answer_of, left_of};
ghost use Rattle.row_plan.specs.Puts.{plan_put};

use crate::make::ITEM_BYTES;
use crate::row::column_at;
use value::Value;
use wire::Refusal;
use wire::refusal::{BAD_BITS, NO_COLUMN, NO_ROOM, NOT_TAKEN};

// Which present column comes next, and where its value goes in the image.
#[derive(Clone, Copy, Debug, PartialEq, Eq)]
pub struct ItemCursor {
    pub item: usize,
    pub offset: usize,
}

impl ItemCursor {
    // Stores one value, or nothing for NULL, at this cursor, for its item of the plan, and answers where the next goes. Any plan and any
    // cursor obey the same rule.
    #[tactic(auto, using(wire::proofs::Rules::tests), unfolding(crate::specs::Puts::plan_put))]
    pub fn put(
        self,
        plan: &[u8],
        nulls: &[u8],
        value: Value,
        lent: &[u8],
        buf: &mut [u8],
    ) -> Result<ItemCursor, Refusal>
        ensures result_value { result
            ≡ answer_of (plan_put plan.now nulls.now self lent.now value buf.old) }
        ensures buf_after { buf.new
            ≡ left_of (plan_put plan.now nulls.now self lent.now value buf.old)
            buf.old }
    {
        let item = self.item;
        let offset = self.offset;
        let items = plan.len() / ITEM_BYTES;
        if nulls.len() != wire::bytes_for(items) {
            return Err(wire::refuse(BAD_BITS, 0));
        }
        if items <= item {
            return Err(wire::refuse(NO_COLUMN, item));
        }
        let at = ITEM_BYTES * item;
        let column = column_at(plan, at);
        let behind = item + 1;
        let is_marked = wire::bit_lsb0(nulls, item);
        if let Value::Null = value {
            if !is_marked {
                return Err(wire::refuse(NOT_TAKEN, column));
            }
            if buf.len() < offset {
                return Err(wire::refuse(NO_ROOM, 0));
            }
            return Ok(ItemCursor {
                item: behind,
                offset,
            });
        }
        if is_marked {
            return Err(wire::refuse(NOT_TAKEN, column));
        }
        let next = value::write_op(plan[at], value, lent, buf, offset, column)?;
        Ok(ItemCursor {
            item: behind,
            offset: next,
        })
    }
}
