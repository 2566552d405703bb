// The parts of a number, and whether each is in its range. Bits and decimals differ in their radices alone. The error is the first part out
// of range, by its number: that is what a refusal lends to C. What is in range fits its narrower type, so no cast loses a bit.
ghost use Rattle.std.specs.Prelude.{◌≡◌, ◌<◌, ◌≤◌, IfOk, IfErr};
ghost use Rattle.temporal.specs.Ranges.{clock_fault, day_fault};
ghost use Rattle.temporal.specs.Times.{time_by};
ghost use Rattle.temporal.specs.Datetimes.{datetime_by, date_of};
ghost use Rattle.temporal.specs.Inner.Ranged.{ranged_time, ranged_datetime, ranged_date};

use crate::parts::{Date, Datetime, Temporal, Time};
use wire::refusal::{DAY, FRACTION, HOUR, MINUTE, MONTH, SECOND, YEAR};

// What the fields of a whole part are counted in.
#[derive(Clone, Copy)]
pub(crate) struct Radices {
    // seconds and minutes
    pub(crate) sixty: u64,
    pub(crate) hours: u64,
    pub(crate) days: u64,
    pub(crate) months: u64,
    pub(crate) ghost some: { (0 < sixty) × (0 < hours) × (0 < days) × (0 < months) },
    pub(crate) ghost small: { (sixty ≤ 100) × (hours ≤ 100) × (days ≤ 100) × (months ≤ 100) },
}

impl Radices {
    // Fields of bits, but for the months.
    pub(crate) const BITS: Radices = Radices {
        sixty: 64,
        hours: 32,
        days: 32,
        months: 13,
    };

    // Fields of two decimals each.
    pub(crate) const DECIMALS: Radices = Radices {
        sixty: 100,
        hours: 100,
        days: 100,
        months: 100,
    };
}

// A clock whose hours go up to top. Its parts are numbers side by side, as the definition `clock_fault` takes them.
#[tactic(auto, using(wire::proofs::Rules::tests), unfolding(crate::specs::Ranges::clock_fault))]
pub(crate) fn check_clock(top: u64, h: u64, m: u64, s: u64, u: u64) -> Result<(), u8>
    ensures clear { IfOk result (λ _. clock_fault top h m s u ≡ 0) }
    ensures within { IfOk result (λ _. (h ≤ top) × (m ≤ 59) × (s ≤ 59) × (u ≤ 999999)) }
    ensures first { IfErr result (λ part. (part ≡ clock_fault top h m s u) × (0 < part)) }
{
    if top < h {
        return Err(HOUR);
    }
    if 59 < m {
        return Err(MINUTE);
    }
    if 59 < s {
        return Err(SECOND);
    }
    if 999_999 < u {
        return Err(FRACTION);
    }
    Ok(())
}

// A date, as `day_fault` takes it.
#[tactic(auto, using(wire::proofs::Rules::tests), unfolding(crate::specs::Ranges::day_fault))]
pub(crate) fn check_day(y: u64, mo: u64, d: u64) -> Result<(), u8>
    ensures clear { IfOk result (λ _. day_fault y mo d 0 ≡ 0) }
    ensures within { IfOk result (λ _. (y ≤ 9999) × (mo ≤ 12) × (d ≤ 31)) }
    ensures first { IfErr result (λ part. (part ≡ day_fault y mo d 0) × (0 < part)) }
{
    if 9999 < y {
        return Err(YEAR);
    }
    if 12 < mo {
        return Err(MONTH);
    }
    if 31 < d {
        return Err(DAY);
    }
    Ok(())
}

// The time of a whole part n and of u microseconds.
#[tactic(auto, using(wire::proofs::Rules::tests), unfolding(crate::specs::Times::time_by))]
pub(crate) fn time_by(radices: Radices, negative: bool, n: u64, u: u64) -> Result<Temporal, u8>
    ensures { result ≡ ranged_time (time_by radices.sixty negative n u) }
{
    let to_minutes = n / radices.sixty;
    let h = to_minutes / radices.sixty;
    let m = to_minutes % radices.sixty;
    let s = n % radices.sixty;
    check_clock(838, h, m, s, u)?;
    Ok(Temporal::Time(Time {
        negative,
        hours: h as u16,
        minutes: m as u8,
        seconds: s as u8,
        micros: u as u32,
    }))
}

// The datetime of a whole part n and of u microseconds.
#[tactic(auto, unfolding(crate::specs::Datetimes::datetime_by))]
pub(crate) fn datetime_by(radices: Radices, n: u64, u: u64) -> Result<Temporal, u8>
    ensures { result ≡ ranged_datetime (datetime_by radices.sixty radices.hours radices.days radices.months n u) }
{
    let to_minutes = n / radices.sixty;
    let to_hours = to_minutes / radices.sixty;
    let to_days = to_hours / radices.hours;
    let to_months = to_days / radices.days;
    datetime_of(
        to_months / radices.months,
        to_months % radices.months,
        to_days % radices.days,
        to_hours % radices.hours,
        to_minutes % radices.sixty,
        n % radices.sixty,
        u,
    )
}

// The datetime of these parts.
#[tactic(auto, using(wire::proofs::Rules::tests))]
fn datetime_of(y: u64, mo: u64, d: u64, h: u64, mi: u64, s: u64, u: u64) -> Result<Temporal, u8>
    ensures { result ≡ ranged_datetime record { year = y; month = mo; day = d; hour = h; minute = mi; second = s; micros = u } }
{
    check_day(y, mo, d)?;
    check_clock(23, h, mi, s, u)?;
    Ok(Temporal::Datetime(Datetime {
        year: y as u16,
        month: mo as u8,
        day: d as u8,
        hour: h as u8,
        minute: mi as u8,
        second: s as u8,
        micros: u as u32,
    }))
}

// The date of a number: day 5 bits, month 4, then the year.
#[tactic(auto, using(wire::proofs::Rules::tests), unfolding(crate::specs::Datetimes::date_of))]
pub(crate) fn date_of(n: u64) -> Result<Temporal, u8>
    ensures { result ≡ ranged_date (date_of n) }
{
    let to_months = n / 32;
    let y = to_months / 16;
    let mo = to_months % 16;
    let d = n % 32;
    check_day(y, mo, d)?;
    Ok(Temporal::Date(Date {
        year: y as u16,
        month: mo as u8,
        day: d as u8,
    }))
}
