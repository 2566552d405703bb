// Integers and temporals read fast, out of the eight bytes that stand from a value's start on: each reader judges the parts and then fills the
// value's slot of numbers itself. What it does not take it leaves, with the slot as it was: a value out of its range, and every other op. Then
// the value is read as everywhere, which tells the refusal. Each op has an arm of its own, so that all widths in it are constants.
ghost use Rattle.std.specs.Prelude.{◌≡◌, ◌-◌, ◌*◌, ◌/◌, ◌≤◌, ◌<◌, ◌^◌, take};
ghost use Rattle.wire.specs.Number.{le_value};
ghost use Rattle.temporal.specs.declared.storage.Storage.TheVariants.{Newdate, Timestamp2, Datetime2, Time2};
ghost use Rattle.temporal.specs.Fraction.{fraction_bytes, unit_of};
ghost use Rattle.temporal.specs.Ranges.{in_clock};
ghost use Rattle.value.specs.declared.shape.Shape.TheVariants.{Unsigned, Signed, YearByte, Timed};
ghost use Rattle.value.specs.Years.{year_of};
ghost use Rattle.value.specs.Ops.{shape_for};
ghost use Rattle.row_plan.specs.Inner.Fast.{Took};

use crate::numbers::{IntegerWidth, Numbers, one};
use value_parts::sort::{DATE, DATETIME, INT, SECONDS, TIME, UINT, YEAR};

// The number of the first of the eight bytes, the least significant first.
#[tactic(auto, using(wire::proofs::Eight::le_eight))]
fn low(width: IntegerWidth, bytes: &[u8; 8]) -> u64
    ensures { (result ≡ le_value (take width.bytes bytes.now)) × (result < 256 ^ width.bytes) }
{
    let x = u64::from_le_bytes(*bytes);
    match width.bytes {
        1 => x % 0x100,
        2 => x % 0x1_0000,
        3 => x % 0x100_0000,
        4 => x % 0x1_0000_0000,
        8 => x,
        k => wire::read_le(bytes, 0, k),
    }
}

// ---- the readers. The eight bytes and the slot stay two parameters: the one is read, the other filled.

fn take_unsigned(width: IntegerWidth, bytes: &[u8; 8], slot: &mut Numbers) -> Option<usize>
    ensures { Took (Unsigned width.bytes) bytes.now slot.old slot.new result }
{
    *slot = one(UINT, low(width, bytes));
    Some(width.bytes)
}

fn take_signed(width: IntegerWidth, bytes: &[u8; 8], slot: &mut Numbers) -> Option<usize>
    ensures { Took (Signed width.bytes) bytes.now slot.old slot.new result }
{
    *slot = one(INT, width.widened(low(width, bytes)));
    Some(width.bytes)
}

// The year that a byte says. `value` has the same for its own readers: lent, it would be a public function with a statement and an edit of its
// own, for a few lines.
fn year_of(byte: u8) -> u64
    ensures { result ≡ year_of byte }
{
    if byte == 0 {
        return 0;
    }
    1900 + u64::from(byte)
}

fn take_year(bytes: &[u8; 8], slot: &mut Numbers) -> Option<usize>
    ensures { Took YearByte bytes.now slot.old slot.new result }
{
    *slot = one(YEAR, year_of(bytes[0]));
    Some(1)
}

fn take_date(bytes: &[u8; 8], slot: &mut Numbers) -> Option<usize>
    ensures { Took (Timed Newdate) bytes.now slot.old slot.new result }
{
    let n = low(IntegerWidth::THREE, bytes);
    let to_months = n / 32;
    let year = to_months / 16;
    let month = to_months % 16;
    if 9999 < year {
        return None;
    }
    if 12 < month {
        return None;
    }
    *slot = [DATE, year, month, n % 32, 0, 0, 0, 0];
    Some(3)
}

// How many bytes a fraction has. `temporal` has such a width for its own readers, and the test of a clock: lent, each would be a public function
// with a statement and an edit of its own, for a few lines.
#[derive(Clone, Copy)]
struct FractionWidth {
    bytes: usize,
    ghost few: { bytes ≤ 3 },
}

impl FractionWidth {
    // Of a column that declares so many digits.
    #[tactic(auto, using(wire::proofs::Rules::tests), unfolding(temporal::specs::Fraction::fraction_bytes))]
    fn of_digits(digits: u8) -> FractionWidth
        ensures { result.bytes ≡ fraction_bytes digits }
    {
        let bytes = match digits {
            0 => 0,
            1..=2 => 1,
            3..=4 => 2,
            _ => 3,
        };
        FractionWidth { bytes }
    }

    // The microseconds of a fraction that is the first of the three bytes of n.
    #[tactic(auto, unfolding(temporal::specs::Fraction::unit_of))]
    fn micros(self, n: u64) -> u64
        requires { n < 256 ^ 3 }
        ensures { result ≡ n / 256 ^ (3 - self.bytes) * unit_of self.bytes }
    {
        match self.bytes {
            0 => 0,
            1 => n / 0x1_0000 * 10_000,
            2 => n / 0x100 * 100,
            _ => n,
        }
    }

    // A number without the last bytes of its three last ones, where these are a fraction and what is behind it.
    fn kept(self, n: u64) -> u64
        ensures { result ≡ n / 256 ^ (3 - self.bytes) * 256 ^ (3 - self.bytes) }
    {
        match self.bytes {
            0 => n / 0x100_0000 * 0x100_0000,
            1 => n / 0x1_0000 * 0x1_0000,
            2 => n / 0x100 * 0x100,
            _ => n,
        }
    }
}

#[tactic(auto, using(wire::proofs::Rules::tests), unfolding(temporal::specs::Ranges::in_clock))]
fn is_clock(top: u64, h: u64, m: u64, s: u64, u: u64) -> bool
    ensures { result ≡ in_clock top h m s u }
{
    h <= top && m <= 59 && s <= 59 && u <= 999_999
}

fn take_seconds(digits: u8, bytes: &[u8; 8], slot: &mut Numbers) -> Option<usize>
    ensures { Took (Timed (Timestamp2 digits)) bytes.now slot.old slot.new result }
{
    let width = FractionWidth::of_digits(digits);
    let x = u64::from_be_bytes(*bytes);
    let usec = width.micros(x / 0x100 % 0x100_0000);
    if 999_999 < usec {
        return None;
    }
    *slot = [SECONDS, x / 0x1_0000_0000, usec, 0, 0, 0, 0, 0];
    Some(4 + width.bytes)
}

// What is added to the whole part of a datetime, and to that and the fraction of a time in six bytes, before it is stored.
const DATETIME_OFS: u64 = 1 << 39;

const TIME_OFS: u64 = 1 << 47;

fn take_datetime(digits: u8, bytes: &[u8; 8], slot: &mut Numbers) -> Option<usize>
    ensures { Took (Timed (Datetime2 digits)) bytes.now slot.old slot.new result }
{
    let width = FractionWidth::of_digits(digits);
    let x = u64::from_be_bytes(*bytes);
    let whole = x / 0x100_0000;
    if whole < DATETIME_OFS {
        return None;
    }
    let n = whole - DATETIME_OFS;
    let to_minutes = n / 64;
    let to_hours = to_minutes / 64;
    let to_days = to_hours / 32;
    let to_months = to_days / 32;
    let year = to_months / 13;
    let hour = to_hours % 32;
    let usec = width.micros(x % 0x100_0000);
    if 9999 < year {
        return None;
    }
    if !is_clock(23, hour, to_minutes % 64, n % 64, usec) {
        return None;
    }
    *slot = [
        DATETIME,
        year,
        to_months % 13,
        to_days % 32,
        hour,
        to_minutes % 64,
        n % 64,
        usec,
    ];
    Some(5 + width.bytes)
}

// Whole part and fraction are one number of six bytes, less its offset: what is behind the fraction counts as zero.
fn take_time(digits: u8, bytes: &[u8; 8], slot: &mut Numbers) -> Option<usize>
    ensures { Took (Timed (Time2 digits)) bytes.now slot.old slot.new result }
{
    let width = FractionWidth::of_digits(digits);
    let packed = width.kept(u64::from_be_bytes(*bytes) / 0x1_0000);
    let off = packed.abs_diff(TIME_OFS);
    let n = off / 0x100_0000;
    let to_minutes = n / 64;
    let hours = to_minutes / 64;
    let usec = width.micros(off % 0x100_0000);
    if !is_clock(838, hours, to_minutes % 64, n % 64, usec) {
        return None;
    }
    *slot = [
        TIME,
        u64::from(packed < TIME_OFS),
        hours,
        to_minutes % 64,
        n % 64,
        usec,
        0,
        0,
    ];
    Some(3 + width.bytes)
}

// The value of an op: how many bytes it takes, unless it is left. Ops stay numbers: they are the bytes of a plan, which C lends. Each has an arm
// of its own: for an arm of two ops the compiler makes tests one after the other in place of a jump, which costs a temporal a twelfth.
#[tactic(auto, using(crate::proofs::FastLaws::at_op), unfolding(value::specs::Ops::shape_for))]
pub(crate) fn take_op(op: u8, bytes: &[u8; 8], slot: &mut Numbers) -> Option<usize>
    ensures { Took (shape_for op) bytes.now slot.old slot.new result }
{
    match op {
        2 => take_unsigned(IntegerWidth::ONE, bytes, slot),
        3 => take_unsigned(IntegerWidth::TWO, bytes, slot),
        4 => take_unsigned(IntegerWidth::THREE, bytes, slot),
        5 => take_unsigned(IntegerWidth::FOUR, bytes, slot),
        9 => take_unsigned(IntegerWidth::EIGHT, bytes, slot),
        10 => take_signed(IntegerWidth::ONE, bytes, slot),
        11 => take_signed(IntegerWidth::TWO, bytes, slot),
        12 => take_signed(IntegerWidth::THREE, bytes, slot),
        13 => take_signed(IntegerWidth::FOUR, bytes, slot),
        17 => take_signed(IntegerWidth::EIGHT, bytes, slot),
        20 => take_year(bytes, slot),
        24 => take_date(bytes, slot),
        25 => take_seconds(0, bytes, slot),
        26 => take_seconds(1, bytes, slot),
        27 => take_seconds(2, bytes, slot),
        28 => take_seconds(3, bytes, slot),
        29 => take_seconds(4, bytes, slot),
        30 => take_seconds(5, bytes, slot),
        31 => take_seconds(6, bytes, slot),
        32 => take_datetime(0, bytes, slot),
        33 => take_datetime(1, bytes, slot),
        34 => take_datetime(2, bytes, slot),
        35 => take_datetime(3, bytes, slot),
        36 => take_datetime(4, bytes, slot),
        37 => take_datetime(5, bytes, slot),
        38 => take_datetime(6, bytes, slot),
        39 => take_time(0, bytes, slot),
        40 => take_time(1, bytes, slot),
        41 => take_time(2, bytes, slot),
        42 => take_time(3, bytes, slot),
        43 => take_time(4, bytes, slot),
        44 => take_time(5, bytes, slot),
        45 => take_time(6, bytes, slot),
        _ => None,
    }
}
