// A temporal written: what its column can hold, in its stored form, all of it or nothing.
ghost use Rattle.std.specs.Prelude.{◌≡◌, true, ◌++◌, ◌+◌, ◌*◌, ◌/◌, ◌^◌, ◌≤◌, ◌<◌};
ghost use Rattle.wire.specs.Number.{be_bytes};
ghost use Rattle.wire.specs.Stored.{store, answer_of, left_of};
ghost use Rattle.temporal.specs.Fraction.{unit_of};
ghost use Rattle.temporal.specs.Storage.{whole_of, units_of};
ghost use Rattle.temporal.specs.Times.{time_number, time2_whole, time2_fraction};
ghost use Rattle.temporal.specs.Datetimes.{datetime_number, date_number};
ghost use Rattle.temporal.specs.Domains.{temporal_domain};
ghost use Rattle.temporal.specs.Reading.{write_temporal};

use crate::domain::in_domain;
use crate::fraction::Width;
use crate::judge::Radices;
use crate::misc::{DATETIMEF_INT_OFS, TIMEF_INT_OFS};
use crate::parts::{Date, Datetime, Temporal, Time};
use crate::storage::{Storage, fraction_width, is_big, whole_bytes};
use wire::refusal::{NO_ROOM, NOT_TAKEN};
use wire::{Refusal, refuse};

// Writes the temporal from at on; place is what a refusal tells of one that the column cannot hold.
pub fn write_temporal(
    storage: Storage,
    temporal: Temporal,
    buf: &mut [u8],
    at: usize,
    place: usize,
) -> Result<usize, Refusal>
    ensures result_value { result ≡ answer_of (write_temporal storage place temporal buf.old at) }
    ensures buf_after { buf.new ≡ left_of (write_temporal storage place temporal buf.old at) buf.old }
{
    if !in_domain(storage, temporal) {
        return Err(refuse(NOT_TAKEN, place));
    }
    let k = whole_bytes(storage);
    let (whole, units) = numbers_of(storage, temporal);
    if is_big(storage) {
        let width = fraction_width(storage);
        return write_two(k, whole, width, units, buf, at);
    }
    wire::write_le(k, whole, buf, at)
}

// Writes the k low bytes of a whole part and the low bytes of a fraction behind them, all of them or none. The numbers are no `Stored`: that
// tells that the units fit their bytes, which nothing here asks for.
fn write_two(
    k: usize,
    whole: u64,
    width: Width,
    units: u64,
    buf: &mut [u8],
    at: usize,
) -> Result<usize, Refusal>
    requires { k ≤ 8 }
    ensures result_value { result ≡ answer_of (store (be_bytes k whole ++ be_bytes width.bytes units) buf.old at) }
    ensures buf_after { buf.new ≡ left_of (store (be_bytes k whole ++ be_bytes width.bytes units) buf.old at) buf.old }
{
    let size = k + width.bytes;
    if !wire::has_room(buf.len(), at, size) {
        return Err(refuse(NO_ROOM, 0));
    }
    let middle = wire::write_be(k, whole, buf, at)?;
    wire::write_be(width.bytes, units, buf, middle)
}

// The numbers that the temporal is stored as: its whole part and its fraction.
#[tactic(auto, unfolding(crate::specs::Domains::temporal_domain, crate::specs::Storage::fraction_size, crate::specs::Storage::whole_of, crate::specs::Storage::units_of, crate::specs::Storage::temporal_tag, crate::specs::Storage::seconds_in, crate::specs::Storage::date_in, crate::specs::Storage::datetime_in, crate::specs::Storage::time_in))]
fn numbers_of(storage: Storage, temporal: Temporal) -> (u64, u64)
    requires { temporal_domain storage temporal ≡ true }
    ensures { (result.0 ≡ whole_of storage temporal) × (result.1 ≡ units_of storage temporal) }
{
    let width = fraction_width(storage);
    match (storage, temporal) {
        (Storage::Timestamp, Temporal::Seconds(t)) => (u64::from(t.seconds), 0),
        (Storage::OldTime, Temporal::Time(t)) => (time_number(Radices::DECIMALS, t), 0),
        (Storage::OldDatetime, Temporal::Datetime(m)) => (datetime_number(Radices::DECIMALS, m), 0),
        (Storage::Newdate, Temporal::Date(d)) => (date_number(d), 0),
        (Storage::Timestamp2 { .. }, Temporal::Seconds(t)) => {
            (u64::from(t.seconds), width.units_of(t.micros))
        }
        (Storage::Datetime2 { .. }, Temporal::Datetime(m)) => {
            let whole = DATETIMEF_INT_OFS + datetime_number(Radices::BITS, m);
            (whole, width.units_of(m.micros))
        }
        (Storage::Time2 { .. }, Temporal::Time(t)) => time2_numbers(width, t),
        // No column can hold a temporal of another sort.
        _ => unreachable!(),
    }
}

// A fraction of a negative time counts up from the whole second below it, so the stored whole part is one less.
#[tactic(auto, using(wire::proofs::Rules::tests, crate::proofs::Units::unit_fits), unfolding(crate::specs::Times::time2_whole, crate::specs::Times::time2_fraction))]
fn time2_numbers(width: Width, t: Time) -> (u64, u64)
    requires { (time_number 64 t < 2 ^ 23) × (t.micros ≤ 999999) }
    ensures { let u = t.micros / unit_of width.bytes in (result.0 ≡ time2_whole t u) × (result.1 ≡ time2_fraction width.bytes t.negative u) }
{
    let n = time_number(Radices::BITS, t);
    let units = width.units_of(t.micros);
    if !t.negative {
        return (TIMEF_INT_OFS + n, units);
    }
    if units == 0 {
        return (TIMEF_INT_OFS - n, 0);
    }
    (TIMEF_INT_OFS - n - 1, width.span() - units)
}

// The fields of a time as one number.
fn time_number(radices: Radices, t: Time) -> u64
    ensures { (result ≡ time_number radices.sixty t) × (result ≤ 1000000000) }
{
    let hours = u64::from(t.hours);
    let minutes = append(hours, radices.sixty, t.minutes);
    append(minutes, radices.sixty, t.seconds)
}

// The same of a datetime.
fn datetime_number(radices: Radices, m: Datetime) -> u64
    ensures { (result ≡ datetime_number radices.sixty radices.hours radices.days radices.months m) × (result ≤ 1000000000000000) }
{
    let year = u64::from(m.year);
    let to_months = append(year, radices.months, m.month);
    let to_days = append(to_months, radices.days, m.day);
    let to_hours = append(to_days, radices.hours, m.hour);
    let to_minutes = append(to_hours, radices.sixty, m.minute);
    append(to_minutes, radices.sixty, m.second)
}

// The same of a date.
fn date_number(d: Date) -> u64
    ensures { result ≡ date_number d }
{
    let year = u64::from(d.year);
    let months = append(year, 16, d.month);
    append(months, 32, d.day)
}

// One more field behind a number. No radix is above 100, so no number of fields is too large.
fn append(n: u64, radix: u64, field: u8) -> u64
    requires { (radix ≤ 100) × (n ≤ 100000000000000) }
    ensures { (result ≡ n * radix + field) × (result ≤ n * 100 + 255) }
{
    n * radix + u64::from(field)
}
