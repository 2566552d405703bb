// A stored value read, by its shape (binlog/value.rs: BinlogValue::deserialize).
#![tactic(auto, using(crate::proofs::Readers::reading), unfolding(crate::specs::Columns::is_taken, crate::specs::Shapes::need, crate::specs::Shapes::decode, crate::specs::Shapes::fault, crate::specs::Reading::placed))]

ghost use Rattle.std.specs.Prelude.{◌≡◌, ◌+◌, ◌-◌, ◌≤◌, ◌<◌, cond, length, leb};
ghost use Rattle.wire.specs.Outcome.{ok, refuse};
ghost use Rattle.value.specs.Reading.{read_value};

use crate::datum::Value;
use crate::shape::{Layout, Shape};
use crate::years::year_of;
use temporal::Storage;
use wire::refusal::IMAGE_SHORT;
use wire::{Part, Refusal};

impl Layout {
    // The value at `at`, and the place after it; place is what a refusal tells.
    #[tactic(auto, using(crate::proofs::Readers::no_column_lem))]
    pub(crate) fn read(self, s: &[u8], at: usize, place: usize) -> Result<(Value, usize), Refusal>
        ensures { result ≡ read_value self.shape place s.now at }
    {
        match self.shape {
            Shape::Unsigned(k) => read_unsigned(k, s, at, place),
            Shape::Signed(k) => read_signed(k, s, at, place),
            Shape::FloatBits => read_float(s, at, place),
            Shape::DoubleBits => read_double(s, at, place),
            Shape::YearByte => read_year(s, at, place),
            Shape::Timed(storage) => read_timed(storage, s, at, place),
            Shape::Fixed(n) => read_fixed(n, s, at, place),
            Shape::Counted(k) => read_counted(k, s, at, place),
            Shape::NotTaken(n) => Err(wire::refuse(n, place)),
        }
    }
}

// The place after the n bytes from at on. It is no `wire::within`: no bytes, asked for past the end, are no refusal here.
fn behind(s: &[u8], at: usize, n: usize, place: usize) -> Result<usize, Refusal>
    ensures { result ≡ cond (leb n (length s.now - at)) (ok (at + n)) (refuse 9 place) }
{
    if s.len().saturating_sub(at) < n {
        return Err(wire::refuse(IMAGE_SHORT, place));
    }
    Ok(at + n)
}

// ---- the readers of one shape each, which differ in what they make of the bytes; those of a plan's ops are called with constant widths.
// s, at and place stay three parameters, as in every public reader: a struct of them would be made at each call, and say no more.

pub(crate) fn read_unsigned(
    k: usize,
    s: &[u8],
    at: usize,
    place: usize,
) -> Result<(Value, usize), Refusal>
    requires { k ≤ 8 }
    ensures { result ≡ read_value (Shape.Unsigned k) place s.now at }
{
    let next = behind(s, at, k, place)?;
    Ok((Value::Uint(wire::read_le(s, at, k)), next))
}

pub(crate) fn read_signed(
    k: usize,
    s: &[u8],
    at: usize,
    place: usize,
) -> Result<(Value, usize), Refusal>
    requires { (0 < k) × (k ≤ 8) }
    ensures { result ≡ read_value (Shape.Signed k) place s.now at }
{
    let next = behind(s, at, k, place)?;
    let x = wire::read_le(s, at, k);
    Ok((Value::Int(wire::signed_of(k, x)), next))
}

pub(crate) fn read_float(s: &[u8], at: usize, place: usize) -> Result<(Value, usize), Refusal>
    ensures { result ≡ read_value Shape.FloatBits place s.now at }
{
    let next = behind(s, at, 4, place)?;
    Ok((Value::Float(wire::read_le(s, at, 4) as u32), next))
}

pub(crate) fn read_double(s: &[u8], at: usize, place: usize) -> Result<(Value, usize), Refusal>
    ensures { result ≡ read_value Shape.DoubleBits place s.now at }
{
    let next = behind(s, at, 8, place)?;
    Ok((Value::Double(wire::read_le(s, at, 8)), next))
}

pub(crate) fn read_year(s: &[u8], at: usize, place: usize) -> Result<(Value, usize), Refusal>
    ensures { result ≡ read_value Shape.YearByte place s.now at }
{
    let next = behind(s, at, 1, place)?;
    let byte = wire::read_le(s, at, 1) as u8;
    Ok((Value::Year(year_of(byte)), next))
}

pub(crate) fn read_timed(
    storage: Storage,
    s: &[u8],
    at: usize,
    place: usize,
) -> Result<(Value, usize), Refusal>
    ensures { result ≡ read_value (Shape.Timed storage) place s.now at }
{
    let (temporal, next) = temporal::read_temporal(storage, s, at, place)?;
    Ok((Value::Temporal(temporal), next))
}

pub(crate) fn read_fixed(
    n: usize,
    s: &[u8],
    at: usize,
    place: usize,
) -> Result<(Value, usize), Refusal>
    ensures { result ≡ read_value (Shape.Fixed n) place s.now at }
{
    let next = behind(s, at, n, place)?;
    Ok((Value::Bytes(Part { start: at, len: n }), next))
}

pub(crate) fn read_counted(
    k: usize,
    s: &[u8],
    at: usize,
    place: usize,
) -> Result<(Value, usize), Refusal>
    requires { k ≤ 4 }
    ensures { result ≡ read_value (Shape.Counted k) place s.now at }
{
    let start = behind(s, at, k, place)?;
    let len = wire::read_le(s, at, k) as usize;
    let next = behind(s, start, len, place)?;
    Ok((Value::Bytes(Part { start, len }), next))
}
