// A value stored, by its shape: whether it is one of the column's, how many bytes it takes, and these bytes written.
ghost use Rattle.std.specs.Prelude.{◌≡◌, ◌++◌, ◌≤◌, length};
ghost use Rattle.wire.specs.Number.{le_bytes};
ghost use Rattle.wire.specs.Stored.{store, answer_of, left_of};
ghost use Rattle.value.specs.Inner.Storing.{storable};
ghost use Rattle.value.specs.Storing.{is_lent, is_in, write_value, size_of};

use crate::datum::Value;
use crate::shape::{Layout, Shape, width_of};
use crate::years::{byte_of_year, in_years};
use wire::refusal::{NO_ROOM, NOT_TAKEN};
use wire::{Refusal, top_of};

// Whether all of a value's bytes are among those lent. Here and below a value and what is lent for it stay two, as the definitions take them.
#[tactic(auto, using(wire::proofs::Rules::tests), unfolding(crate::specs::Storing::is_lent, crate::specs::Storing::bytes_at))]
fn is_lent(value: Value, lent: &[u8]) -> bool
    ensures { result ≡ is_lent lent.now value }
{
    match value {
        Value::Bytes(part) => wire::has_room(lent.len(), part.start, part.len),
        _ => true,
    }
}

// Writes a length of k bytes, and then the bytes.
fn write_counted(k: usize, bytes: &[u8], buf: &mut [u8], at: usize) -> Result<usize, Refusal>
    requires { k ≤ 4 }
    ensures result_value { result
        ≡ answer_of (store (le_bytes k (length bytes.now) ++ bytes.now) buf.old at) }
    ensures buf_after { buf.new
        ≡ left_of (store (le_bytes k (length bytes.now) ++ bytes.now) buf.old at) buf.old }
{
    let size = k + bytes.len();
    if !wire::has_room(buf.len(), at, size) {
        return Err(wire::refuse(NO_ROOM, 0));
    }
    let behind = wire::write_le(k, bytes.len() as u64, buf, at)?;
    wire::write_bytes(bytes, buf, behind)
}

impl Layout {
    // Whether a column of the shape takes the value.
    #[tactic(auto, using(crate::proofs::Writers::not_in, crate::proofs::Writers::of_sort, crate::proofs::Writers::of_another))]
    fn takes(self, value: Value, lent: &[u8]) -> bool
        ensures { result ≡ is_in self.shape lent.now value }
    {
        if !is_lent(value, lent) {
            return false;
        }
        match (self.shape, value) {
            (Shape::Unsigned(k), Value::Uint(n)) => n <= top_of(k),
            (Shape::Signed(k), Value::Int(z)) => wire::in_halves(k, z),
            (Shape::FloatBits, Value::Float(_)) => true,
            (Shape::DoubleBits, Value::Double(_)) => true,
            (Shape::YearByte, Value::Year(year)) => in_years(year),
            (Shape::Timed(storage), Value::Temporal(t)) => temporal::in_domain(storage, t),
            (Shape::Fixed(n), Value::Bytes(part)) => part.len == n,
            (Shape::Counted(k), Value::Bytes(part)) => part.len as u64 <= top_of(k),
            _ => false,
        }
    }

    // Whether a value can be stored: the shape is judged first, then the value.
    #[tactic(auto, using(crate::proofs::Writers::judging))]
    fn judge(self, value: Value, lent: &[u8], place: usize) -> Result<(), Refusal>
        ensures { result ≡ storable self.shape place lent.now value }
    {
        if let Shape::NotTaken(n) = self.shape {
            return Err(wire::refuse(n, place));
        }
        if !self.takes(value, lent) {
            return Err(wire::refuse(NOT_TAKEN, place));
        }
        Ok(())
    }

    // How many bytes a value takes.
    #[tactic(auto, using(crate::proofs::Writers::sizing))]
    pub(crate) fn size(self, value: Value, lent: &[u8], place: usize) -> Result<usize, Refusal>
        ensures { result ≡ size_of self.shape place lent.now value }
    {
        self.judge(value, lent, place)?;
        let Shape::Counted(k) = self.shape else {
            return Ok(width_of(self.shape));
        };
        let Value::Bytes(part) = value else {
            unreachable!();
        };
        Ok(k + part.len)
    }

    // Writes a value from at on; its bytes, if it has any, are in lent.
    #[tactic(auto, using(crate::proofs::Writers::writing))]
    pub(crate) fn write(
        self,
        value: Value,
        lent: &[u8],
        buf: &mut [u8],
        at: usize,
        place: usize,
    ) -> Result<usize, Refusal>
        ensures result_value { result ≡ answer_of (write_value self.shape place lent.now value buf.old at) }
        ensures buf_after { buf.new
            ≡ left_of (write_value self.shape place lent.now value buf.old at) buf.old }
    {
        self.judge(value, lent, place)?;
        match (self.shape, value) {
            (Shape::Unsigned(k), Value::Uint(n)) => wire::write_le(k, n, buf, at),
            (Shape::Signed(k), Value::Int(z)) => wire::write_le(k, wire::twos_of(k, z), buf, at),
            (Shape::FloatBits, Value::Float(bits)) => wire::write_le(4, u64::from(bits), buf, at),
            (Shape::DoubleBits, Value::Double(bits)) => wire::write_le(8, bits, buf, at),
            (Shape::YearByte, Value::Year(year)) => {
                wire::write_le(1, u64::from(byte_of_year(year)), buf, at)
            }
            (Shape::Timed(storage), Value::Temporal(t)) => {
                temporal::write_temporal(storage, t, buf, at, place)
            }
            (Shape::Fixed(_), Value::Bytes(part)) => {
                wire::write_bytes(wire::part_of(lent, part), buf, at)
            }
            (Shape::Counted(k), Value::Bytes(part)) => {
                write_counted(k, wire::part_of(lent, part), buf, at)
            }
            _ => unreachable!(),
        }
    }
}
