// Which temporals a column can hold, by their ranges and units alone.
#![tactic(auto, using(wire::proofs::Rules::tests), unfolding(crate::specs::Domains::seconds_domain, crate::specs::Domains::date_domain, crate::specs::Domains::datetime_domain, crate::specs::Domains::time_domain, crate::specs::Domains::temporal_domain, crate::specs::Storage::fraction_size, crate::specs::Storage::temporal_tag, crate::specs::Storage::seconds_in, crate::specs::Storage::date_in, crate::specs::Storage::datetime_in, crate::specs::Storage::time_in))]

ghost use Rattle.std.specs.Prelude.{◌≡◌, ◌&&◌, ◌+◌, eqb};
ghost use Rattle.temporal.specs.Ranges.{in_day, in_clock};
ghost use Rattle.temporal.specs.Domains.{seconds_domain, date_domain, datetime_domain, time_domain, temporal_domain};

use crate::fraction::Width;
use crate::judge::{check_clock, check_day};
use crate::parts::{Date, Datetime, Seconds, Temporal, Time};
use crate::storage::{Storage, fraction_width};

// Whether a column of this storage can hold the temporal.
pub fn in_domain(storage: Storage, temporal: Temporal) -> bool
    ensures { result ≡ temporal_domain storage temporal }
{
    let width = fraction_width(storage);
    match (storage, temporal) {
        (Storage::Timestamp | Storage::Timestamp2 { .. }, Temporal::Seconds(t)) => {
            holds_seconds(width, t)
        }
        (Storage::Newdate, Temporal::Date(d)) => holds_date(d),
        (Storage::OldDatetime | Storage::Datetime2 { .. }, Temporal::Datetime(m)) => {
            holds_datetime(width, m)
        }
        // TIME has no bit for a sign.
        (Storage::OldTime, Temporal::Time(t)) => !t.negative && holds_time(width, t),
        (Storage::Time2 { .. }, Temporal::Time(t)) => holds_time(width, t),
        _ => false,
    }
}

fn holds_seconds(width: Width, t: Seconds) -> bool
    ensures { result ≡ seconds_domain width.bytes t }
{
    t.micros <= 999_999 && width.has_units(t.micros)
}

fn holds_date(d: Date) -> bool
    ensures { result ≡ date_domain d }
{
    in_day(d.year, d.month, d.day)
}

fn holds_datetime(width: Width, m: Datetime) -> bool
    ensures { result ≡ datetime_domain width.bytes m }
{
    in_day(m.year, m.month, m.day)
        && in_clock(23, u16::from(m.hour), m.minute, m.second, m.micros)
        && width.has_units(m.micros)
}

fn holds_time(width: Width, t: Time) -> bool
    ensures { result ≡ time_domain width.bytes t }
{
    in_clock(838, t.hours, t.minutes, t.seconds, t.micros)
        && width.has_units(t.micros)
        && !negative_zero(t)
}

// Whether a date is in range. Here and below the parts are numbers side by side, as the definitions `in_day` and `in_clock` take them.
fn in_day(y: u16, mo: u8, d: u8) -> bool
    ensures { result ≡ in_day y mo d }
{
    check_day(u64::from(y), u64::from(mo), u64::from(d)).is_ok()
}

// Whether a clock is in range. Hours go up to top.
fn in_clock(top: u64, h: u16, m: u8, s: u8, u: u32) -> bool
    ensures { result ≡ in_clock top h m s u }
{
    check_clock(top, u64::from(h), u64::from(m), u64::from(s), u64::from(u)).is_ok()
}

// Whether a negative time has all parts zero: it would be read as one that is not negative.
fn negative_zero(t: Time) -> bool
    ensures { result ≡ t.negative && eqb (t.hours + t.minutes + t.seconds + t.micros) 0 }
{
    t.negative && t.hours == 0 && t.minutes == 0 && t.seconds == 0 && t.micros == 0
}
