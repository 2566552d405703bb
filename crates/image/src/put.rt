// An image written: a start, which stores the null bits, and then a step for each present column.
ghost use Rattle.std.specs.Prelude.{◌≡◌, [], ◌≤◌, ◌<◌, length};
ghost use Rattle.wire.specs.Bits.{bytes_for};
ghost use Rattle.wire.specs.Stored.{stored, answer_of, left_of};
ghost use Rattle.value.specs.Reading.{datum_of};
ghost use Rattle.image.specs.Split.{slots_at};
ghost use Rattle.image.specs.Inner.Steps.{Placed, Puts};
ghost use Rattle.image.specs.Rows.{is_null};
ghost use Rattle.image.specs.Puts.{head_nulls, spare_set, filled, start_image, put_over, put_from};

use crate::cursor::{Cursor, Head, read_head};
use crate::presence::{count_bits, first_set};
use crate::step::{InnerCursor, column_in};
use value::Value;
use wire::Refusal;
use wire::refusal::{BAD_BITS, NO_COLUMN, NO_ROOM, NOT_TAKEN};

// The tests of `read_head`, and then refusal 12 for the null bits.
#[tactic(auto, using(wire::proofs::Rules::tests), unfolding(crate::specs::Puts::head_nulls))]
fn read_head_nulls(profile: &[u8], presence: &[u8], nulls: &[u8]) -> Result<Head, Refusal>
    ensures { result ≡ head_nulls profile.now presence.now nulls.now }
{
    let head = read_head(profile, presence)?;
    if nulls.len() != head.nulls {
        return Err(wire::refuse(BAD_BITS, 0));
    }
    Ok(head)
}

// Stores the null bits at the buffer's start, with the spare bits of the last byte set. Like a step, it answers where the next value goes.
#[tactic(auto, using(crate::proofs::PutLaws::Puts::starting), unfolding(crate::specs::Puts::start_image))]
pub fn start(
    profile: &[u8],
    presence: &[u8],
    nulls: &[u8],
    buf: &mut [u8],
) -> Result<Cursor, Refusal>
    ensures result_value { result
        ≡ answer_of (start_image profile.now presence.now nulls.now buf.old) }
    ensures buf_after { buf.new
        ≡ left_of (start_image profile.now presence.now nulls.now buf.old) buf.old }
{
    let head = read_head_nulls(profile, presence, nulls)?;
    if buf.len() < head.nulls {
        return Err(wire::refuse(NO_ROOM, 0));
    }
    put_nulls(nulls, head.present, buf);
    Ok(Cursor {
        column: 0,
        offset: head.nulls,
    })
}

// A byte whose lowest `used` bits are as they were, the others set.
#[tactic(auto, using(wire::proofs::Digits::weight_is, crate::proofs::PutLaws::Fills::unit_is))]
fn spare_set(used: usize, b: u8) -> u8
    requires { used < 8 }
    ensures { result ≡ spare_set used b }
{
    let unit: u8 = 1 << used;
    b % unit + (255 - (unit - 1))
}

// The n null bits and the spare bits behind them.
#[tactic(auto, using(crate::proofs::PutLaws::Fills::put_whole, crate::proofs::PutLaws::Fills::put_spare))]
fn put_nulls(nulls: &[u8], n: usize, buf: &mut [u8])
    requires { (length nulls.now ≡ bytes_for n) × (length nulls.now ≤ length buf.old) }
    ensures { buf.new ≡ stored (filled n nulls.now) buf.old 0 }
{
    let _ = wire::write_bytes(nulls, buf, 0);
    let used = n % 8;
    if used != 0 {
        let last = n / 8;
        buf[last] = spare_set(used, nulls[last]);
    }
}

// A step on a record, presence bits and null bits that were tested: the next present column from the cursor on takes the value, whose bytes
// are in lent.
#[tactic(auto, using(crate::proofs::PutLaws::Puts::putting))]
fn put_inner(
    profile: &[u8],
    presence: &[u8],
    nulls: &[u8],
    columns: usize,
    at: InnerCursor,
    value: Value,
    lent: &[u8],
    buf: &mut [u8],
) -> Result<Cursor, Refusal>
    requires { Placed profile.now presence.now columns at }
    ensures { Puts buf.old (put_over (slots_at profile.now presence.now nulls.now at.cursor.column) at.cursor lent.now value buf.old) result
        buf.new }
{
    let offset = at.cursor.offset;
    let column = first_set(presence, at.cursor.column, columns);
    if column == columns {
        return Err(wire::refuse(NO_COLUMN, at.cursor.column));
    }
    let null = is_null(value);
    if null != wire::bit_lsb0(nulls, at.rank) {
        return Err(wire::refuse(NOT_TAKEN, column));
    }
    let behind = column + 1;
    if null {
        // No bytes: a test of the room alone.
        let offset = wire::write_bytes(&[], buf, offset)?;
        return Ok(Cursor {
            column: behind,
            offset,
        });
    }
    let stored = column_in(profile, column);
    let offset = value::write_value(stored, value, lent, buf, offset, column)?;
    Ok(Cursor {
        column: behind,
        offset,
    })
}

#[tactic(auto, unfolding(crate::specs::Rows::is_null, value::specs::Reading::datum_of))]
fn is_null(value: Value) -> bool
    ensures { result ≡ is_null (datum_of [] value) }
{
    matches!(value, Value::Null)
}

impl Cursor {
    // Stores one value, or nothing for NULL, at this cursor, for the next present column from it on. A made-up cursor obeys the same rule.
    #[tactic(auto, using(crate::proofs::PutLaws::Puts::put_anywhere), unfolding(crate::specs::Puts::put_from))]
    pub fn put(
        self,
        profile: &[u8],
        presence: &[u8],
        nulls: &[u8],
        value: Value,
        lent: &[u8],
        buf: &mut [u8],
    ) -> Result<Cursor, Refusal>
        ensures result_value { result
            ≡ answer_of (put_from profile.now presence.now nulls.now self lent.now value
            buf.old) }
        ensures buf_after { buf.new
            ≡ left_of (put_from profile.now presence.now nulls.now self lent.now value
            buf.old)
            buf.old }
    {
        let head = read_head_nulls(profile, presence, nulls)?;
        if head.columns < self.column {
            return Err(wire::refuse(NO_COLUMN, self.column));
        }
        let at = InnerCursor {
            cursor: self,
            rank: count_bits(presence, self.column),
        };
        put_inner(profile, presence, nulls, head.columns, at, value, lent, buf)
    }
}
