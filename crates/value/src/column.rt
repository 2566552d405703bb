// How the values of a column are stored: what follows from its type and its metadata.
#![tactic(auto, using(wire::proofs::Rules::tests), unfolding(crate::specs::Columns::declared_length, crate::specs::Columns::leftover_bytes, crate::specs::Columns::decimal_bytes, crate::specs::Columns::shape_in, crate::specs::Columns::shape_of, crate::specs::Columns::is_taken))]

ghost use Rattle.std.specs.Prelude.{◌≡◌, false, ◌≤◌, ◌<◌};
ghost use Rattle.value.specs.Columns.{declared_in, declared_length, length_bytes, leftover_bytes, digits_bytes, decimal_bytes, shape_if};
ghost use Rattle.value.specs.Columns.{shape_in, shape_of, is_taken};

use crate::shape::{Layout, Shape};
use crate::types::{Family, MYSQL_TYPE_DATE, MYSQL_TYPE_STRING, family_of, or_30};
use temporal::Storage;
use wire::refusal::{BAD_METADATA, TYPE_NOT_TAKEN};

// What must be known of a column to read its values: its real type, its metadata, and whether an integer is unsigned.
#[derive(Clone, Copy, Debug, PartialEq, Eq)]
pub struct Column {
    pub real: u8,
    pub m0: u8,
    pub m1: u8,
    pub unsigned: bool,
}

// The declared length of a string, in bytes; other families declare none. That of a CHAR is m1 and, above it, two bits of m0 that are kept
// inverted. Here and below m0 and m1 are two numbers, as the definitions take them.
#[tactic(auto, using(crate::proofs::Bits::char_same), unfolding(crate::specs::Columns::declared_in))]
fn declared_in(family: Family, m0: u8, m1: u8) -> usize
    ensures { result ≡ declared_in family m0 m1 }
{
    match family {
        Family::Varchar => usize::from(m0) + 256 * usize::from(m1),
        Family::Char => usize::from(m1) + 16 * usize::from((m0 & 0x30) ^ 0x30),
        _ => 0,
    }
}

// The same of a column.
pub fn declared_length(column: Column) -> usize
    ensures { result ≡ declared_length column.real column.m0 column.m1 }
{
    declared_in(family_of(column.real), column.m0, column.m1)
}

// How many bytes the length of a string takes, by the declared length.
fn length_bytes(declared: usize) -> usize
    ensures { result ≡ length_bytes declared }
{
    if declared < 256 { 1 } else { 2 }
}

// How many bytes the digits of a decimal beyond nines take: one for two of them, and one for the last of an odd number.
fn leftover_bytes(digits: usize) -> usize
    requires { digits < 9 }
    ensures { result ≡ leftover_bytes digits }
{
    digits.div_ceil(2)
}

// How many bytes the digits on one side of a decimal's point take.
fn digits_bytes(digits: u8) -> usize
    ensures { result ≡ digits_bytes digits }
{
    let n = usize::from(digits);
    n / 9 * 4 + leftover_bytes(n % 9)
}

// How many bytes a decimal takes.
fn decimal_bytes(precision: u8, scale: u8) -> usize
    requires { scale ≤ precision }
    ensures { result ≡ decimal_bytes precision scale }
{
    digits_bytes(precision - scale) + digits_bytes(scale)
}

// The shape of a column whose metadata pass a test; there is no other.
fn shape_if(test: bool, shape: Shape) -> Shape
    ensures { result ≡ shape_if test shape }
{
    if test {
        return shape;
    }
    Shape::NotTaken(BAD_METADATA)
}

fn bit_shape(m0: u8, m1: u8) -> Shape
    ensures { result ≡ shape_in Family.Bit m0 m1 false }
{
    let bits = 8 * usize::from(m1) + usize::from(m0);
    shape_if(
        m0 <= 7 && matches!(bits, 1..=64),
        Shape::Fixed(bits.div_ceil(8)),
    )
}

// A decimal of m0 digits, m1 of them behind the point.
fn decimal_shape(m0: u8, m1: u8) -> Shape
    ensures { result ≡ shape_in Family.Decimal m0 m1 false }
{
    if matches!(m0, 1..=65) && m1 <= 30 && m1 <= m0 {
        return Shape::Fixed(decimal_bytes(m0, m1));
    }
    Shape::NotTaken(BAD_METADATA)
}

// Which metadata a family accepts, and how its values are then stored. Metadata bytes that it does not have are 0.
fn shape_in(family: Family, m0: u8, m1: u8, unsigned: bool) -> Shape
    ensures { result ≡ shape_in family m0 m1 unsigned }
{
    let none = m0 == 0 && m1 == 0;
    let digits = m0 <= 6 && m1 == 0;
    match family {
        Family::Integer { width } => {
            let shape = if unsigned {
                Shape::Unsigned(width)
            } else {
                Shape::Signed(width)
            };
            shape_if(none, shape)
        }
        Family::Float => shape_if(m0 == 4 && m1 == 0, Shape::FloatBits),
        Family::Double => shape_if(m0 == 8 && m1 == 0, Shape::DoubleBits),
        Family::Year => shape_if(none, Shape::YearByte),
        Family::Timestamp => shape_if(none, Shape::Timed(Storage::Timestamp)),
        Family::Date => shape_if(none, Shape::Timed(Storage::Newdate)),
        Family::Time => shape_if(none, Shape::Timed(Storage::OldTime)),
        Family::Datetime => shape_if(none, Shape::Timed(Storage::OldDatetime)),
        Family::Timestamp2 => shape_if(digits, Shape::Timed(Storage::Timestamp2 { m0 })),
        Family::Datetime2 => shape_if(digits, Shape::Timed(Storage::Datetime2 { m0 })),
        Family::Time2 => shape_if(digits, Shape::Timed(Storage::Time2 { m0 })),
        Family::Varchar => Shape::Counted(length_bytes(declared_in(family, m0, m1))),
        Family::Char => shape_if(
            or_30(m0) == MYSQL_TYPE_STRING,
            Shape::Counted(length_bytes(declared_in(family, m0, m1))),
        ),
        Family::Blob => shape_if(
            matches!(m0, 1..=4) && m1 == 0,
            Shape::Counted(usize::from(m0)),
        ),
        Family::Json => shape_if(m0 == 4 && m1 == 0, Shape::Counted(4)),
        Family::Bit => bit_shape(m0, m1),
        Family::Decimal => decimal_shape(m0, m1),
        Family::Enum => shape_if(matches!(m1, 1 | 2), Shape::Unsigned(usize::from(m1))),
        Family::Set => shape_if(matches!(m1, 1..=4 | 8), Shape::Fixed(usize::from(m1))),
        Family::Unknown => Shape::NotTaken(TYPE_NOT_TAKEN),
    }
}

// How the values of a column are stored. Its type is a real type, which 10 is not.
pub fn shape_of(column: Column) -> Shape
    ensures { result ≡ shape_of column }
{
    if column.real == MYSQL_TYPE_DATE {
        return Shape::NotTaken(TYPE_NOT_TAKEN);
    }
    shape_in(
        family_of(column.real),
        column.m0,
        column.m1,
        column.unsigned,
    )
}

// The same, as a shape whose width there is.
#[tactic(auto, using(crate::proofs::Tables::sized))]
pub(crate) fn layout_of(column: Column) -> Layout
    ensures { result.shape ≡ shape_of column }
{
    Layout {
        shape: shape_of(column),
    }
}

// Whether there is such a column.
pub fn is_accepted(column: Column) -> bool
    ensures { result ≡ is_taken (shape_of column) }
{
    !matches!(shape_of(column), Shape::NotTaken(_))
}
