// The call that takes a block, in the Open phase: look at the bytes at hand as one list, decide, then store.
ghost use Rattle.std.specs.Prelude.{◌≡◌, List, ℕ, length, drop};
ghost use Rattle.wire.specs.Stored.{answer_of, left_of};
ghost use Rattle.temporal.specs.declared.storage.Storage.{Storage};
ghost use Rattle.value.specs.Columns.{shape_of};
ghost use Rattle.value.specs.Shapes.{fault};
ghost use Rattle.blocks.specs.Turns.{whole};
ghost use Rattle.blocks.specs.Gives.{by_turn, at_hand, give_open};
ghost use Rattle.blocks.specs.Inner.Hands.{Heads, value_over, Sits, Holds, Wholes};

use crate::call::Call;
use crate::due::Due;
use crate::hand::Hand;
use crate::lent::Lent;
use crate::state::{Arrival, Arriving, BlockGiven, longing, standing};
use crate::turn::{Turn, prefix_of, turn_of};
use image::Head;
use value::Shape;
use wire::Refusal;

#[tactic(auto, using(crate::proofs::Sitting::open_answers), unfolding(crate::specs::Gives::commit))]
pub(crate) fn give_open(lent: Lent, carry: &mut [u8], call: Call) -> Result<BlockGiven, Refusal>
    requires { Sits (length carry.old) lent.head.columns lent.head.nulls call.at }
    ensures value { let l = lent.entry in let c = call.entry in
        result ≡ answer_of (give_open l.profile.now l.presence.now l.head.nulls c.at carry.old c.block.now) }
    ensures carry_after { let l = lent.entry in let c = call.entry in
        carry.new ≡ left_of (give_open l.profile.now l.presence.now l.head.nulls c.at carry.old c.block.now) carry.old }
{
    let Arriving { column, held, .. } = call.at;
    let Head { columns, nulls, .. } = lent.head;
    let len = held + call.block.len();
    if len < nulls {
        return Ok(call.take_to(carry, len, Arrival::More, standing(column, len)));
    }
    let found = image::first_set(lent.presence, column, columns);
    if found == columns {
        let used = call.at.used + nulls.saturating_sub(held);
        let end = Arrival::End { used };
        return Ok(call.take_to(carry, nulls, end, standing(column, nulls)));
    }
    let hand = Hand {
        held: &carry[..held],
        block: call.block,
    };
    if hand.bit(image::count_bits(lent.presence, found)) {
        let null = Arrival::Null { column: found };
        return Ok(call.take_to(carry, nulls, null, standing(found + 1, nulls)));
    }
    let due = Due {
        call,
        nulls,
        column: found,
        kind: record::column_of(record::entry_in(lent.profile, found)),
    };
    give_value(carry, due)
}

#[tactic(auto, using(crate::proofs::Values::turn_answers), unfolding(crate::specs::Gives::commit))]
fn give_value(carry: &mut [u8], due: Due) -> Result<BlockGiven, Refusal>
    requires { Holds (length carry.old) (length due.call.block.now) due.nulls due.call.at }
    ensures value { let d = due.entry in
        result ≡ answer_of (value_over d.nulls (shape_of d.kind) d.column d.call.at carry.old d.call.block.now) }
    ensures carry_after { let d = due.entry in
        carry.new ≡ left_of (value_over d.nulls (shape_of d.kind) d.column d.call.at carry.old d.call.block.now) carry.old }
{
    let Due {
        call,
        nulls,
        column,
        kind,
    } = due;
    let shape = value::shape_of(kind);
    let held = call.at.held;
    let len = held + call.block.len();
    let hand = Hand {
        held: &carry[..held],
        block: call.block,
    };
    let head = hand.head(nulls);
    let room = carry.len() - nulls;
    match turn_of(shape, &head, len - nulls, room) {
        Turn::Wait => Ok(call.take_to(carry, len, Arrival::More, standing(column, len))),
        Turn::Long(len) => {
            let upto = nulls + prefix_of(shape);
            let long = Arrival::Long { column, len };
            Ok(call.take_to(carry, upto, long, longing(column, upto, len)))
        }
        Turn::Whole(n) => match shape {
            Shape::Timed(_) => give_timed(carry, due, &head, n),
            _ => give_stored(carry, due, n),
        },
    }
}

// A temporal may be refused, so it is judged before its bytes are stored. They are all in the head.
#[tactic(auto, using(crate::proofs::Values::timed_got, crate::proofs::Values::timed_not), unfolding(crate::specs::Gives::commit))]
fn give_timed(carry: &mut [u8], due: Due, head: &[u8], n: usize) -> Result<BlockGiven, Refusal>
    requires { Wholes (shape_of due.kind) carry.old due.call.block.now due.nulls due.call.at n
        × ((k : Storage) × (shape_of due.kind ≡ Shape.Timed k))
        × Heads (at_hand due.call.at carry.old due.call.block.now) due.nulls head.now 8 }
    ensures value { let d = due.entry in let x = drop d.nulls (at_hand d.call.at carry.old d.call.block.now) in
        result ≡ answer_of (by_turn d.nulls (shape_of d.kind) d.column x d.call.at carry.old d.call.block.now (whole n)) }
    ensures carry_after { let d = due.entry in let x = drop d.nulls (at_hand d.call.at carry.old d.call.block.now) in
        carry.new ≡ left_of (by_turn d.nulls (shape_of d.kind) d.column x d.call.at carry.old d.call.block.now (whole n)) carry.old }
{
    let column = due.column;
    let (value, _) = value::read_value(due.kind, head, 0, column)?;
    let next = standing(column + 1, due.nulls);
    Ok(due.call.take_to(carry, due.nulls + n, Arrival::Value { column, value }, next))
}

// No other value is refused, so it is stored, and then read where it stands.
#[tactic(auto, using(crate::proofs::Values::stored_got, crate::proofs::Values::stored_not), unfolding(crate::specs::Gives::commit))]
fn give_stored(carry: &mut [u8], due: Due, n: usize) -> Result<BlockGiven, Refusal>
    requires { Wholes (shape_of due.kind) carry.old due.call.block.now due.nulls due.call.at n
        × ((b : List ℕ) → fault (shape_of due.kind) b ≡ 0) }
    ensures value { let d = due.entry in let x = drop d.nulls (at_hand d.call.at carry.old d.call.block.now) in
        result ≡ answer_of (by_turn d.nulls (shape_of d.kind) d.column x d.call.at carry.old d.call.block.now (whole n)) }
    ensures carry_after { let d = due.entry in let x = drop d.nulls (at_hand d.call.at carry.old d.call.block.now) in
        carry.new ≡ left_of (by_turn d.nulls (shape_of d.kind) d.column x d.call.at carry.old d.call.block.now (whole n)) carry.old }
{
    let column = due.column;
    let taken = due.call.commit(carry, due.nulls + n);
    let (value, _) = value::read_value(due.kind, carry, due.nulls, column)?;
    let next = standing(column + 1, due.nulls);
    Ok(due.call.took(taken, Arrival::Value { column, value }, next))
}
