// Ports binlog/misc.rs, in two steps as there: stored numbers to a packed one, and that to its parts. The Rust packs sign, whole part and
// microseconds into one i64, by shifts; here they stand side by side, so that nothing is shifted and nothing below zero is shifted back.
// Its functions read from a stream; here the numbers were read before.
ghost use Rattle.std.specs.Prelude.{◌≡◌, ◌<◌, ◌^◌};
ghost use Rattle.temporal.specs.Times.{signed_time, time_by};
ghost use Rattle.temporal.specs.Datetimes.{signed_datetime, seconds_of};
ghost use Rattle.temporal.specs.Inner.Ranged.{ranged_time, ranged_seconds, ranged_signed};

use crate::judge::{Radices, datetime_by, time_by};
use crate::parts::{Seconds, Temporal};
use crate::stored::Stored;
use wire::refusal::{BELOW_ZERO, FRACTION};

// What is added to the whole part of a time, and of a datetime, before it is stored: so nothing is stored below zero.
pub(crate) const TIMEF_INT_OFS: u64 = 1 << 23;

pub(crate) const DATETIMEF_INT_OFS: u64 = 1 << 39;

// A sign beside what it is the sign of: the definitions `signed_time` and `signed_datetime` are of this.
#[derive(Clone, Copy)]
pub(crate) struct SignedTime {
    pub(crate) negative: bool,
    pub(crate) whole: u64,
    pub(crate) micros: u64,
}

pub(crate) fn my_packed_time_make(negative: bool, whole: u64, micros: u64) -> SignedTime
    ensures { result ≡ record { negative = negative; whole = whole; micros = micros } }
{
    SignedTime {
        negative,
        whole,
        micros,
    }
}

// A fraction of a negative time counts up from the whole second below it.
#[tactic(auto, using(wire::proofs::Rules::tests, crate::proofs::Units::unit_room), unfolding(crate::specs::Times::signed_time))]
pub(crate) fn my_time_packed_from_binary(stored: Stored) -> SignedTime
    ensures { result ≡ signed_time stored.width.bytes stored.whole stored.units }
{
    if TIMEF_INT_OFS <= stored.whole {
        let whole = stored.whole - TIMEF_INT_OFS;
        return my_packed_time_make(false, whole, stored.micros());
    }
    if stored.units == 0 {
        let whole = TIMEF_INT_OFS - stored.whole;
        return my_packed_time_make(true, whole, 0);
    }
    let whole = TIMEF_INT_OFS - stored.whole - 1;
    let units = stored.width.span() - stored.units;
    let micros = units * stored.width.unit();
    my_packed_time_make(true, whole, micros)
}

// Hours are not split into days and hours, and not cut to 10 bits.
pub(crate) fn time_from_packed(tmp: SignedTime) -> Result<Temporal, u8>
    ensures { result ≡ ranged_time (time_by 64 tmp.negative tmp.whole tmp.micros) }
{
    time_by(Radices::BITS, tmp.negative, tmp.whole, tmp.micros)
}

// The fraction is unsigned, where the Rust reads a signed one. Below zero there is no whole part to tell: 0.
#[tactic(auto, using(wire::proofs::Rules::tests), unfolding(crate::specs::Datetimes::signed_datetime))]
pub(crate) fn my_datetime_packed_from_binary(stored: Stored) -> SignedTime
    ensures { result ≡ signed_datetime stored.width.bytes stored.whole stored.units }
{
    let micros = stored.micros();
    if DATETIMEF_INT_OFS <= stored.whole {
        let whole = stored.whole - DATETIMEF_INT_OFS;
        return my_packed_time_make(false, whole, micros);
    }
    my_packed_time_make(true, 0, micros)
}

// One below zero is refused, where the Rust takes its absolute value.
pub(crate) fn datetime_from_packed(tmp: SignedTime) -> Result<Temporal, u8>
    ensures { result ≡ ranged_signed tmp }
{
    if tmp.negative {
        return Err(BELOW_ZERO);
    }
    datetime_by(Radices::BITS, tmp.whole, tmp.micros)
}

// Seconds are unsigned, where the Rust makes an i32 of them.
#[tactic(auto, using(wire::proofs::Rules::tests), unfolding(crate::specs::Ranges::clock_fault, crate::specs::Datetimes::seconds_of))]
pub(crate) fn my_timestamp_from_binary(stored: Stored) -> Result<Temporal, u8>
    requires { stored.whole < 2 ^ 32 }
    ensures { result ≡ ranged_seconds (seconds_of stored.width.bytes stored.whole stored.units) }
{
    let micros = stored.micros();
    if 999_999 < micros {
        return Err(FRACTION);
    }
    Ok(Temporal::Seconds(Seconds {
        seconds: stored.whole as u32,
        micros: micros as u32,
    }))
}
