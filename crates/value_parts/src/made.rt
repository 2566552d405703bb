// The value that a sort and parts make.
#![tactic(auto, using(wire::proofs::Rules::tests, crate::proofs::Takes::fit_is), unfolding(crate::specs::Parts::tops_of))]

ghost use Rattle.std.specs.Prelude.{◌≡◌, cond, Some, None, Ok, Err, MatchOption, get_or};
ghost use Rattle.wire.specs.Parts.{part};
ghost use Rattle.value_parts.specs.Parts.{tops_of, fit, makes_value, made_seconds, made_date, made_datetime, made_time, made, value_of};

use crate::sort::{BYTES, DATE, DATETIME, DOUBLE, FLOAT, INT, NULL, SECONDS, TIME, UINT, YEAR};
use temporal::{Date, Datetime, Seconds, Temporal, Time};
use value::Value;
use wire::refusal::NOT_TAKEN;
use wire::{Part, Refusal};

// A part as a narrower number, if it is no greater than that can be.
fn narrow<T: TryFrom<u64>>(part: u64) -> Option<T>
where
    T::Error: Drop,
    ensures { MatchOption result ((e : T.Error) × T.try_from_gives part (Err e)) (λ x. T.try_from_gives part (Ok x)) }
{
    T::try_from(part).ok()
}

// ---- what the parts of one sort make, if all are there and none is too great

fn seconds_of(parts: &[u64]) -> Option<Seconds>
    ensures { result ≡ cond (fit (tops_of 6) parts.now) (Some (made_seconds parts.now)) None }
{
    let [seconds, micros, ..] = parts else {
        return None;
    };
    Some(Seconds {
        seconds: narrow(*seconds)?,
        micros: narrow(*micros)?,
    })
}

fn date_of(parts: &[u64]) -> Option<Date>
    ensures { result ≡ cond (fit (tops_of 8) parts.now) (Some (made_date parts.now)) None }
{
    let [year, month, day, ..] = parts else {
        return None;
    };
    Some(Date {
        year: narrow(*year)?,
        month: narrow(*month)?,
        day: narrow(*day)?,
    })
}

fn datetime_of(parts: &[u64]) -> Option<Datetime>
    ensures { result ≡ cond (fit (tops_of 9) parts.now) (Some (made_datetime parts.now)) None }
{
    let [year, month, day, hour, minute, second, micros, ..] = parts else {
        return None;
    };
    Some(Datetime {
        year: narrow(*year)?,
        month: narrow(*month)?,
        day: narrow(*day)?,
        hour: narrow(*hour)?,
        minute: narrow(*minute)?,
        second: narrow(*second)?,
        micros: narrow(*micros)?,
    })
}

fn time_of(parts: &[u64]) -> Option<Time>
    ensures { result ≡ cond (fit (tops_of 10) parts.now) (Some (made_time parts.now)) None }
{
    let [negative @ (0 | 1), hours, minutes, seconds, micros, ..] = parts else {
        return None;
    };
    Some(Time {
        negative: *negative == 1,
        hours: narrow(*hours)?,
        minutes: narrow(*minutes)?,
        seconds: narrow(*seconds)?,
        micros: narrow(*micros)?,
    })
}

fn part_of(parts: &[u64]) -> Option<Part>
    ensures { result ≡ cond (fit (tops_of 11) parts.now) (Some (part (get_or parts.now 0 0) (get_or parts.now 1 0))) None }
{
    let [start, len, ..] = parts else {
        return None;
    };
    Some(Part {
        start: *start as usize,
        len: *len as usize,
    })
}

// The value, if there is such a sort, and all its parts are there, none wider than the sort has it.
#[tactic(auto, using(wire::proofs::Rules::tests, crate::proofs::Takes::fit_is), unfolding(crate::specs::Parts::tops_of, crate::specs::Parts::makes_value, crate::specs::Parts::made))]
fn made(sort: u64, parts: &[u64]) -> Option<Value>
    ensures { result ≡ cond (makes_value sort parts.now) (Some (made sort parts.now)) None }
{
    match sort {
        NULL => Some(Value::Null),
        INT => Some(Value::Int(wire::signed_of(8, *parts.first()?))),
        UINT => Some(Value::Uint(*parts.first()?)),
        FLOAT => Some(Value::Float(narrow(*parts.first()?)?)),
        DOUBLE => Some(Value::Double(*parts.first()?)),
        SECONDS => Some(Value::Temporal(Temporal::Seconds(seconds_of(parts)?))),
        YEAR => Some(Value::Year(narrow(*parts.first()?)?)),
        DATE => Some(Value::Temporal(Temporal::Date(date_of(parts)?))),
        DATETIME => Some(Value::Temporal(Temporal::Datetime(datetime_of(parts)?))),
        TIME => Some(Value::Temporal(Temporal::Time(time_of(parts)?))),
        BYTES => Some(Value::Bytes(part_of(parts)?)),
        _ => None,
    }
}

// The value that a sort and parts make; what stands behind the sort's own parts is not looked at.
#[tactic(auto, using(crate::proofs::Takes::ok_or_cond), unfolding(crate::specs::Parts::value_of))]
pub fn value_of(sort: u64, parts: &[u64]) -> Result<Value, Refusal>
    ensures { result ≡ value_of sort parts.now }
{
    made(sort, parts).ok_or(wire::refuse(NOT_TAKEN, 0))
}
