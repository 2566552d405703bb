// The temporals of types 14, 17, 18 and 19, each read by a function of its own, with constant widths: for a loop that knows its column's
// type. Only that loop calls them, and `read_temporal` must not: the compiler puts a function whole into its caller, if it has but one.
ghost use Rattle.std.specs.Prelude.{◌≡◌, ◌+◌, ◌≤◌, ◌<◌, ◌^◌, length, take, drop, IfOk, IfErr};
ghost use Rattle.wire.specs.Number.{be_value};
ghost use Rattle.wire.specs.Outcome.{why};
ghost use Rattle.temporal.specs.declared.storage.Storage.TheVariants.{Newdate, Timestamp2, Datetime2, Time2};
ghost use Rattle.temporal.specs.Fraction.{fraction_bytes};
ghost use Rattle.temporal.specs.Inner.Stored.{StoredAt};
ghost use Rattle.temporal.specs.Reading.{read_temporal};

use crate::fraction::Width;
use crate::judge::date_of;
use crate::misc::{
    datetime_from_packed, my_datetime_packed_from_binary, my_time_packed_from_binary,
    my_timestamp_from_binary, time_from_packed,
};
use crate::parts::Temporal;
use crate::read::{answer, end_of};
use crate::stored::Stored;
use wire::Refusal;

// The date at `at`, and the place after it; place is what a refusal tells.
pub fn read_newdate(s: &[u8], at: usize, place: usize) -> Result<(Temporal, usize), Refusal>
    ensures { result ≡ read_temporal Newdate place s.now at }
{
    let next = end_of(s, at, 3, place)?;
    answer(date_of(wire::read_le(s, at, 3)), next, place)
}

// The seconds at `at`, of a column that declares m0 digits.
pub fn read_timestamp2(
    m0: u8,
    s: &[u8],
    at: usize,
    place: usize,
) -> Result<(Temporal, usize), Refusal>
    ensures { result ≡ read_temporal (Timestamp2 m0) place s.now at }
{
    let (stored, next) = stored_at::<4>(m0, s, at, place)?;
    answer(my_timestamp_from_binary(stored), next, place)
}

// The datetime.
pub fn read_datetime2(
    m0: u8,
    s: &[u8],
    at: usize,
    place: usize,
) -> Result<(Temporal, usize), Refusal>
    ensures { result ≡ read_temporal (Datetime2 m0) place s.now at }
{
    let (stored, next) = stored_at::<5>(m0, s, at, place)?;
    let packed = my_datetime_packed_from_binary(stored);
    answer(datetime_from_packed(packed), next, place)
}

// The time.
pub fn read_time2(m0: u8, s: &[u8], at: usize, place: usize) -> Result<(Temporal, usize), Refusal>
    ensures { result ≡ read_temporal (Time2 m0) place s.now at }
{
    let (stored, next) = stored_at::<3>(m0, s, at, place)?;
    let packed = my_time_packed_from_binary(stored);
    answer(time_from_packed(packed), next, place)
}

// The numbers of WHOLE bytes at `at` and of a fraction of m0 digits behind them, and the place after both.
fn stored_at<const WHOLE: usize>(
    m0: u8,
    s: &[u8],
    at: usize,
    place: usize,
) -> Result<(Stored, usize), Refusal>
    requires { WHOLE ≤ 8 }
    ensures read { IfOk result (λ x. StoredAt WHOLE (fraction_bytes m0) s.now at x.0 x.1) }
    ensures short { IfErr result (λ r. (r ≡ why 9 place) × (length s.now < at + (WHOLE + fraction_bytes m0))) }
{
    let width = Width::of_digits(m0);
    let next = end_of(s, at, WHOLE + width.bytes, place)?;
    let whole = wire::read_be(s, at, WHOLE);
    let units = units_at(width, s, at + WHOLE);
    Ok((
        Stored {
            whole,
            units,
            width,
        },
        next,
    ))
}

// The number of the bytes of a fraction. The arms stay, since each width is a constant where it is read.
#[tactic(auto, unfolding(wire::specs::Number::be_value))]
fn units_at(width: Width, s: &[u8], at: usize) -> u64
    ensures { (result ≡ be_value (take width.bytes (drop at s.now))) × (result < 256 ^ width.bytes) }
{
    match width.bytes {
        0 => 0,
        1 => wire::read_be(s, at, 1),
        2 => wire::read_be(s, at, 2),
        _ => wire::read_be(s, at, 3),
    }
}
