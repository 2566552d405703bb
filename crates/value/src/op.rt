// A column's shape as one byte, its op, made once; and a value read by its op with one dispatch, or written. The readers are those of every
// value; here they are called with constant widths, so that the compiler makes plain loads of them. Ops stay numbers: they are the bytes of
// a plan, which C lends, and the definitions shape_for and op_of number them.
ghost use Rattle.std.specs.Prelude.{◌≡◌, ◌+◌, ◌≤◌};
ghost use Rattle.value.specs.Ops.{shape_for, op_of, storage_op, within};
ghost use Rattle.wire.specs.Stored.{answer_of, left_of};
ghost use Rattle.value.specs.Reading.{read_value};
ghost use Rattle.value.specs.Storing.{write_value};

use crate::datum::Value;
use crate::reading::{
    read_counted, read_double, read_fixed, read_float, read_signed, read_timed, read_unsigned,
    read_year,
};
use crate::shape::{Layout, Shape};
use temporal::Storage;
use wire::Refusal;
use wire::refusal::BAD_RECORD;

// The op of k, counted from base on, if k is no more than most; else 0, which is no shape's.
fn small(k: usize, most: u8, base: u8) -> u8
    requires { most + base ≤ 255 }
    ensures { result ≡ within most base k }
{
    if k <= usize::from(most) {
        return base + k as u8;
    }
    0
}

// The op of a stored temporal; a column declares 6 fraction digits at most.
#[tactic(auto, using(wire::proofs::Rules::tests), unfolding(crate::specs::Ops::storage_op))]
fn storage_op(storage: Storage) -> u8
    ensures { result ≡ storage_op storage }
{
    match storage {
        Storage::Timestamp => 21,
        Storage::OldTime => 22,
        Storage::OldDatetime => 23,
        Storage::Newdate => 24,
        Storage::Timestamp2 { m0 } => small(usize::from(m0), 6, 25),
        Storage::Datetime2 { m0 } => small(usize::from(m0), 6, 32),
        Storage::Time2 { m0 } => small(usize::from(m0), 6, 39),
    }
}

// The op of a shape; 0 for one that has none.
#[tactic(auto, using(wire::proofs::Rules::tests), unfolding(crate::specs::Ops::op_of))]
pub fn op_of(shape: Shape) -> u8
    ensures { result ≡ op_of shape }
{
    match shape {
        Shape::Unsigned(k) => small(k, 8, 1),
        Shape::Signed(0) => 0,
        Shape::Signed(k) => small(k, 8, 9),
        Shape::FloatBits => 18,
        Shape::DoubleBits => 19,
        Shape::YearByte => 20,
        Shape::Timed(storage) => storage_op(storage),
        Shape::Fixed(n) => small(n, 204, 51),
        Shape::Counted(k) => small(k, 4, 46),
        Shape::NotTaken(_) => 0,
    }
}

// The shape of an op.
#[tactic(auto, using(wire::proofs::Rules::tests), unfolding(crate::specs::Ops::shape_for))]
fn shape_for(op: u8) -> Shape
    ensures { result ≡ shape_for op }
{
    match op {
        0 => Shape::NotTaken(BAD_RECORD),
        1..=9 => Shape::Unsigned(usize::from(op - 1)),
        10..=17 => Shape::Signed(usize::from(op - 9)),
        18 => Shape::FloatBits,
        19 => Shape::DoubleBits,
        20 => Shape::YearByte,
        21 => Shape::Timed(Storage::Timestamp),
        22 => Shape::Timed(Storage::OldTime),
        23 => Shape::Timed(Storage::OldDatetime),
        24 => Shape::Timed(Storage::Newdate),
        25..=31 => Shape::Timed(Storage::Timestamp2 { m0: op - 25 }),
        32..=38 => Shape::Timed(Storage::Datetime2 { m0: op - 32 }),
        39..=45 => Shape::Timed(Storage::Time2 { m0: op - 39 }),
        46..=50 => Shape::Counted(usize::from(op - 46)),
        51..=255 => Shape::Fixed(usize::from(op - 51)),
    }
}

// The same, as a shape whose width there is.
#[tactic(auto, using(crate::proofs::Ops::sized_op))]
fn layout_for(op: u8) -> Layout
    ensures { result.shape ≡ shape_for op }
{
    Layout {
        shape: shape_for(op),
    }
}

// The value of an op that stands at `at` of s. The usual integers and temporals, floats, the year and bytes have an arm each: their answer goes
// to the caller as it is, where by the shape it is laid down first and copied. The others go by their shape.
#[tactic(auto, using(wire::proofs::Rules::tests), unfolding(crate::specs::Ops::shape_for))]
pub fn read_op(op: u8, s: &[u8], at: usize, place: usize) -> Result<(Value, usize), Refusal>
    ensures { result ≡ read_value (shape_for op) place s.now at }
{
    match op {
        2 => read_unsigned(1, s, at, place),
        3 => read_unsigned(2, s, at, place),
        4 => read_unsigned(3, s, at, place),
        5 => read_unsigned(4, s, at, place),
        9 => read_unsigned(8, s, at, place),
        10 => read_signed(1, s, at, place),
        11 => read_signed(2, s, at, place),
        12 => read_signed(3, s, at, place),
        13 => read_signed(4, s, at, place),
        17 => read_signed(8, s, at, place),
        18 => read_float(s, at, place),
        19 => read_double(s, at, place),
        20 => read_year(s, at, place),
        21 => read_timed(Storage::Timestamp, s, at, place),
        24 => read_timed(Storage::Newdate, s, at, place),
        25..=31 => read_timed(Storage::Timestamp2 { m0: op - 25 }, s, at, place),
        32..=38 => read_timed(Storage::Datetime2 { m0: op - 32 }, s, at, place),
        39..=45 => read_timed(Storage::Time2 { m0: op - 39 }, s, at, place),
        47 => read_counted(1, s, at, place),
        48 => read_counted(2, s, at, place),
        49 => read_counted(3, s, at, place),
        50 => read_counted(4, s, at, place),
        51.. => read_fixed(usize::from(op - 51), s, at, place),
        _ => layout_for(op).read(s, at, place),
    }
}

// Writes a value by an op from at on; its bytes, if it has any, are in lent.
pub fn write_op(
    op: u8,
    value: Value,
    lent: &[u8],
    buf: &mut [u8],
    at: usize,
    place: usize,
) -> Result<usize, Refusal>
    ensures result_value { result ≡ answer_of (write_value (shape_for op) place lent.now value buf.old at) }
    ensures buf_after { buf.new
        ≡ left_of (write_value (shape_for op) place lent.now value buf.old at) buf.old }
{
    layout_for(op).write(value, lent, buf, at, place)
}
