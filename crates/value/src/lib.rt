// The types of columns, and one stored value of a column: read, written, and its size.
// Ports mysql_common 0.38.2: binlog/value.rs, and of constants.rs the column types and their classes.
#![tactic(auto)]

mod classes;
mod column;
mod datum;
mod op;
mod reading;
mod shape;
mod storing;
pub mod types;
mod years;

ghost use Rattle.std.specs.Prelude.{◌≡◌};
ghost use Rattle.wire.specs.Stored.{answer_of, left_of};
ghost use Rattle.value.specs.Columns.{shape_of};
ghost use Rattle.value.specs.Shapes.{most_of};
ghost use Rattle.value.specs.Reading.{read_value};
ghost use Rattle.value.specs.Storing.{write_value, size_of};

pub use classes::{Dialect, has_charset, has_sign_bit, is_character, is_enum_or_set};
use column::layout_of;
pub use column::{Column, declared_length, is_accepted, shape_of};
pub use datum::Value;
pub use op::{op_of, read_op, write_op};
pub use shape::Shape;
pub use types::{Family, family_of, is_known, is_numeric, metadata_bytes, real_type};
use wire::Refusal;

// ---- a value of a column at a place; `place` is what a refusal tells

// The value that stands at `at` of s.
pub fn read_value(
    column: Column,
    s: &[u8],
    at: usize,
    place: usize,
) -> Result<(Value, usize), Refusal>
    ensures { result ≡ read_value (shape_of column) place s.now at }
{
    layout_of(column).read(s, at, place)
}

// Writes a value from at on; its bytes, if it has any, are in lent.
pub fn write_value(
    column: Column,
    value: Value,
    lent: &[u8],
    buf: &mut [u8],
    at: usize,
    place: usize,
) -> Result<usize, Refusal>
    ensures result_value { result ≡ answer_of (write_value (shape_of column) place lent.now value buf.old at) }
    ensures buf_after { buf.new
        ≡ left_of (write_value (shape_of column) place lent.now value buf.old at) buf.old }
{
    layout_of(column).write(value, lent, buf, at, place)
}

// How many bytes a value takes.
pub fn value_size(column: Column, value: Value, lent: &[u8], place: usize) -> Result<usize, Refusal>
    ensures { result ≡ size_of (shape_of column) place lent.now value }
{
    layout_of(column).size(value, lent, place)
}

// How many bytes a value of the column takes at most, be it in the column's declared length or not; 0 where there is no such column.
pub fn most_size(column: Column) -> u64
    ensures { result ≡ most_of (shape_of column) }
{
    layout_of(column).most()
}

// ---- a lone value: at the start of what is lent, and every place is 0. The names are those that callers know.

pub fn read_lone(column: Column, s: &[u8]) -> Result<(Value, usize), Refusal>
    ensures { result ≡ read_value (shape_of column) 0 s.now 0 }
{
    read_value(column, s, 0, 0)
}

pub fn write_lone(
    column: Column,
    value: Value,
    lent: &[u8],
    buf: &mut [u8],
) -> Result<usize, Refusal>
    ensures result_value { result ≡ answer_of (write_value (shape_of column) 0 lent.now value buf.old 0) }
    ensures buf_after { buf.new
        ≡ left_of (write_value (shape_of column) 0 lent.now value buf.old 0) buf.old }
{
    write_value(column, value, lent, buf, 0, 0)
}

pub fn lone_size(column: Column, value: Value, lent: &[u8]) -> Result<usize, Refusal>
    ensures { result ≡ size_of (shape_of column) 0 lent.now value }
{
    value_size(column, value, lent, 0)
}
