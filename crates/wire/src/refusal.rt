// Why a call gives no answer: a number of document 01's table, a place, and of a temporal the part that is out of its range.
ghost use Rattle.std.specs.Prelude.{◌≡◌};
ghost use Rattle.wire.specs.Outcome.{why, out_of};

// The numbers stay numbers, and no enum: `refuse` takes any of them, C has them as a call's status, and the statements of Refusals.antt list
// them by number.

// Bytes end in an event part, an optional field, or an integer or a string of a list.
pub const SHORT: u8 = 1;

// The first byte of a packed integer is 251 or 255.
pub const NOT_PACKED: u8 = 2;

// More columns than the check takes.
pub const TOO_MANY_COLUMNS: u8 = 3;

// A column type that is not taken.
pub const TYPE_NOT_TAKEN: u8 = 4;

// Column metadata short, left over or not accepted.
pub const BAD_METADATA: u8 = 5;

// An optional field of an unknown type.
pub const UNKNOWN_FIELD: u8 = 6;

// The contents of an optional field break a rule.
pub const BAD_FIELD: u8 = 7;

// The lent buffer is too small.
pub const NO_ROOM: u8 = 8;

// The row image ends early.
pub const IMAGE_SHORT: u8 = 9;

// A part of a temporal is out of its range.
pub const OUT_OF_RANGE: u8 = 10;

// The profile record is not valid.
pub const BAD_RECORD: u8 = 11;

// Presence or null bits of the wrong length.
pub const BAD_BITS: u8 = 12;

// A value or a part that a writer does not take.
pub const NOT_TAKEN: u8 = 13;

// There is no such column.
pub const NO_COLUMN: u8 = 14;

// The length of a rows event's extra data is below 2, though it counts its own two bytes.
pub const BAD_EXTRA: u8 = 15;

// A rows event of another code, another table or another number of columns.
pub const OTHER_EVENT: u8 = 16;

// The carry that is lent for an image in blocks is too small.
pub const SMALL_CARRY: u8 = 20;

// A state of an image in blocks that is closed or otherwise unfit.
pub const UNFIT_STATE: u8 = 21;

// The parts of a temporal, in the order in which they are tested, but for the last, which comes first: a datetime below zero.
pub const YEAR: u8 = 1;

pub const MONTH: u8 = 2;

pub const DAY: u8 = 3;

pub const HOUR: u8 = 4;

pub const MINUTE: u8 = 5;

pub const SECOND: u8 = 6;

pub const FRACTION: u8 = 7;

pub const BELOW_ZERO: u8 = 8;

// The part is 0 but for refusal 10: 0 and no Option, since C has it so, and the definition `why` makes it.
#[derive(Clone, Copy, Debug, PartialEq, Eq)]
pub struct Refusal {
    pub number: u8,
    pub place: usize,
    pub part: u8,
}

// A refusal that names no part.
pub fn refuse(number: u8, place: usize) -> Refusal
    ensures { result ≡ why number place }
{
    Refusal {
        number,
        place,
        part: 0,
    }
}

// Refusal 10 for this part of a temporal.
pub fn refuse_part(place: usize, part: u8) -> Refusal
    ensures { result ≡ out_of place part }
{
    Refusal {
        number: OUT_OF_RANGE,
        place,
        part,
    }
}
