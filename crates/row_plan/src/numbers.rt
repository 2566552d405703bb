// A value read by its op and told as numbers. The shapes of integers and temporals have readers of their own here, which never make a
// `Value`: each is called at one place, so that the compiler puts it there whole. All other shapes are read as everywhere, and then told.
ghost use Rattle.std.specs.Prelude.{◌≡◌, ℕ, ◌+◌, ◌≤◌, ◌<◌, ◌^◌, length};
ghost use Rattle.wire.specs.Outcome.{after, ok};
ghost use Rattle.wire.specs.Signed.{signed_of, twos_of};
ghost use Rattle.value.specs.declared.shape.Shape.TheVariants.{Unsigned, Signed};
ghost use Rattle.value.specs.Ops.{shape_for};
ghost use Rattle.value.specs.Reading.{read_value};
ghost use Rattle.row_plan.specs.Runs.{value_numbers};
ghost use Rattle.row_plan.specs.Inner.Numbers.{one_listed, integer_in, numbered, start_in};

use temporal::Temporal;
use value::Value;
use value_parts::sort::{
    BYTES, DATE, DATETIME, DOUBLE, FLOAT, INT, NULL, SECONDS, TIME, UINT, YEAR,
};
use wire::Refusal;
use wire::refusal::IMAGE_SHORT;

// How many numbers a value has: its sort and seven parts.
pub const VALUE_NUMBERS: usize = 8;

pub(crate) type Numbers = [u64; VALUE_NUMBERS];

// How many bytes an integer has.
#[derive(Clone, Copy)]
pub(crate) struct IntegerWidth {
    pub(crate) bytes: usize,
    pub(crate) ghost some: { 0 < bytes },
    pub(crate) ghost few: { bytes ≤ 8 },
}

impl IntegerWidth {
    pub(crate) const ONE: IntegerWidth = IntegerWidth { bytes: 1 };

    pub(crate) const TWO: IntegerWidth = IntegerWidth { bytes: 2 };

    pub(crate) const THREE: IntegerWidth = IntegerWidth { bytes: 3 };

    pub(crate) const FOUR: IntegerWidth = IntegerWidth { bytes: 4 };

    pub(crate) const EIGHT: IntegerWidth = IntegerWidth { bytes: 8 };

    // The part that a signed integer has for the number that is stored of it: the same in eight bytes.
    pub(crate) fn widened(self, x: u64) -> u64
        ensures { result ≡ twos_of (2 ^ 64) (signed_of (256 ^ self.bytes) x) }
    {
        wire::twos_of(8, wire::signed_of(self.bytes, x))
    }
}

// The numbers of a value that has one part, or none: then n is 0.
pub(crate) fn one(sort: u64, n: u64) -> Numbers
    ensures { result ≡ one_listed sort n }
{
    [sort, n, 0, 0, 0, 0, 0, 0]
}

// ---- the readers. s, at and place stay three parameters, as in those of `value`: a struct of them would be made at each call, and say no
// more.

// The number that is stored of an integer, and the place after it. The test of the end is that of `wire::within`, which answers another refusal.
fn integer(width: IntegerWidth, s: &[u8], at: usize, place: usize) -> Result<(u64, usize), Refusal>
    ensures { result ≡ integer_in width.bytes s.now at place }
{
    let k = width.bytes;
    if !wire::has_room(s.len(), at, k) {
        return Err(wire::refuse(IMAGE_SHORT, place));
    }
    let next = at + k;
    Ok((wire::read_le(s, at, k), next))
}

// An integer has no bytes, so that its numbers are the same wherever its image starts. An unsigned one and a signed one differ in what the
// number that is stored says.
fn number_unsigned(
    width: IntegerWidth,
    s: &[u8],
    at: usize,
    place: usize,
) -> Result<(Numbers, usize), Refusal>
    ensures { (by : ℕ) → result ≡ numbered by (read_value (Unsigned width.bytes) place s.now at) }
{
    let (x, next) = integer(width, s, at, place)?;
    Ok((one(UINT, x), next))
}

fn number_signed(
    width: IntegerWidth,
    s: &[u8],
    at: usize,
    place: usize,
) -> Result<(Numbers, usize), Refusal>
    ensures { (by : ℕ) → result ≡ numbered by (read_value (Signed width.bytes) place s.now at) }
{
    let (x, next) = integer(width, s, at, place)?;
    Ok((one(INT, width.widened(x)), next))
}

// This and value_numbers tell what `sort_of` and `parts_of` say of the moved value: joined from these, two arrays would be copied for each value.
#[tactic(auto, unfolding(crate::specs::Runs::value_numbers))]
fn temporal_numbers(t: Temporal) -> Numbers
    ensures { (by : ℕ) → result ≡ value_numbers by (Value.Temporal t) }
{
    match t {
        Temporal::Seconds(s) => [
            SECONDS,
            u64::from(s.seconds),
            u64::from(s.micros),
            0,
            0,
            0,
            0,
            0,
        ],
        Temporal::Date(d) => [
            DATE,
            u64::from(d.year),
            u64::from(d.month),
            u64::from(d.day),
            0,
            0,
            0,
            0,
        ],
        Temporal::Datetime(m) => [
            DATETIME,
            u64::from(m.year),
            u64::from(m.month),
            u64::from(m.day),
            u64::from(m.hour),
            u64::from(m.minute),
            u64::from(m.second),
            u64::from(m.micros),
        ],
        Temporal::Time(t) => [
            TIME,
            u64::from(t.negative),
            u64::from(t.hours),
            u64::from(t.minutes),
            u64::from(t.seconds),
            u64::from(t.micros),
            0,
            0,
        ],
    }
}

fn number_timed(read: Result<(Temporal, usize), Refusal>) -> Result<(Numbers, usize), Refusal>
    ensures { (by : ℕ) → result ≡ after read (λ x. ok (value_numbers by (Value.Temporal x.0), x.1)) }
{
    let (temporal, next) = read?;
    Ok((temporal_numbers(temporal), next))
}

// The numbers of a value of an image that starts at `by` among the images.
#[tactic(auto, unfolding(crate::specs::Runs::value_numbers))]
fn value_numbers(value: Value, by: usize) -> Numbers
    requires { by + start_in value < 2 ^ 64 }
    ensures { result ≡ value_numbers by value }
{
    match value {
        Value::Null => one(NULL, 0),
        Value::Int(z) => one(INT, wire::twos_of(8, z)),
        Value::Uint(n) => one(UINT, n),
        Value::Float(bits) => one(FLOAT, u64::from(bits)),
        Value::Double(bits) => one(DOUBLE, bits),
        Value::Year(y) => one(YEAR, u64::from(y)),
        Value::Temporal(t) => temporal_numbers(t),
        Value::Bytes(part) => [
            BYTES,
            (part.start + by) as u64,
            part.len as u64,
            0,
            0,
            0,
            0,
            0,
        ],
    }
}

// A value of any op, by way of a `Value`. From a place within the image its bytes start within the image, so that their start, moved by
// `by`, fits a number.
fn number_value(
    op: u8,
    s: &[u8],
    at: usize,
    place: usize,
    by: usize,
) -> Result<(Numbers, usize), Refusal>
    requires at_in_bounds { at ≤ length s.now }
    requires s_bound { by + length s.now < 2 ^ 64 }
    ensures { result ≡ numbered by (read_value (shape_for op) place s.now at) }
{
    let (value, next) = value::read_op(op, s, at, place)?;
    Ok((value_numbers(value, by), next))
}

// A value of any op, of an image that starts at `by` among the images: integers and temporals by their readers, all others as everywhere. Ops
// stay numbers: they are the bytes of a plan, which C lends.
#[tactic(auto, using(crate::proofs::NumberLaws::at_op), unfolding(value::specs::Ops::shape_for))]
pub(crate) fn number_op(
    op: u8,
    s: &[u8],
    at: usize,
    place: usize,
    by: usize,
) -> Result<(Numbers, usize), Refusal>
    requires at_in_bounds { at ≤ length s.now }
    requires s_bound { by + length s.now < 2 ^ 64 }
    ensures { result ≡ numbered by (read_value (shape_for op) place s.now at) }
{
    match op {
        2 => number_unsigned(IntegerWidth::ONE, s, at, place),
        3 => number_unsigned(IntegerWidth::TWO, s, at, place),
        4 => number_unsigned(IntegerWidth::THREE, s, at, place),
        5 => number_unsigned(IntegerWidth::FOUR, s, at, place),
        9 => number_unsigned(IntegerWidth::EIGHT, s, at, place),
        10 => number_signed(IntegerWidth::ONE, s, at, place),
        11 => number_signed(IntegerWidth::TWO, s, at, place),
        12 => number_signed(IntegerWidth::THREE, s, at, place),
        13 => number_signed(IntegerWidth::FOUR, s, at, place),
        17 => number_signed(IntegerWidth::EIGHT, s, at, place),
        24 => number_timed(temporal::read_newdate(s, at, place)),
        25..=31 => number_timed(temporal::read_timestamp2(op - 25, s, at, place)),
        32..=38 => number_timed(temporal::read_datetime2(op - 32, s, at, place)),
        39..=45 => number_timed(temporal::read_time2(op - 39, s, at, place)),
        _ => number_value(op, s, at, place, by),
    }
}
