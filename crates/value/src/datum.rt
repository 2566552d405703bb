// A value of a column.
use temporal::Temporal;
use wire::Part;

// Floats by their bits. Bytes are a part of the slice that they were read from or are lent in.
#[derive(Clone, Copy, Debug, PartialEq, Eq)]
pub enum Value {
    Null,
    Int(i64),
    Uint(u64),
    Float(u32),
    Double(u64),
    Year(u16),
    Temporal(Temporal),
    Bytes(Part),
}
