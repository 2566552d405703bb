// A stored temporal read: its bytes first, then its ranges. The bytes, where it stands and what a refusal tells stay three parameters, as
// the public readers take them.
ghost use Rattle.std.specs.Prelude.{◌≡◌, ◌+◌, ◌≤◌, ◌<◌, ◌^◌, cond, length, take, drop, leb};
ghost use Rattle.wire.specs.Outcome.{ok, refuse};
ghost use Rattle.temporal.specs.Storage.{whole_bytes, fraction_size, temporal_of, fault_of};
ghost use Rattle.temporal.specs.Inner.Ranged.{ranged, ranged_told};
ghost use Rattle.temporal.specs.Reading.{temporal_size, whole_in, units_in, read_temporal};

use crate::judge::{Radices, date_of, datetime_by, time_by};
use crate::misc::{
    datetime_from_packed, my_datetime_packed_from_binary, my_time_packed_from_binary,
    my_timestamp_from_binary, time_from_packed,
};
use crate::parts::Temporal;
use crate::storage::{Storage, fraction_width, is_big, temporal_size, whole_bytes};
use crate::stored::Stored;
use wire::refusal::IMAGE_SHORT;
use wire::{Refusal, refuse, refuse_part};

// The temporal at `at`, and the place after it; place is what a refusal tells.
pub fn read_temporal(
    storage: Storage,
    s: &[u8],
    at: usize,
    place: usize,
) -> Result<(Temporal, usize), Refusal>
    ensures { result ≡ read_temporal storage place s.now at }
{
    let next = end_of(s, at, temporal_size(storage), place)?;
    let stored = stored_in(storage, s, at);
    answer(judge(storage, stored), next, place)
}

// The place after the bytes of an image, if they are all there. It is no `wire::within`, whose refusal has the number of an event's bytes.
pub(crate) fn end_of(s: &[u8], at: usize, size: usize, place: usize) -> Result<usize, Refusal>
    ensures { result ≡ cond (leb (at + size) (length s.now)) (ok (at + size)) (refuse 9 place) }
{
    if wire::has_room(s.len(), at, size) {
        return Ok(at + size);
    }
    Err(refuse(IMAGE_SHORT, place))
}

// They are all there: what they say, and the place after them, unless a part is out of range.
pub(crate) fn answer(
    ranged: Result<Temporal, u8>,
    next: usize,
    place: usize,
) -> Result<(Temporal, usize), Refusal>
    ensures { result ≡ ranged_told ranged next place }
{
    match ranged {
        Ok(temporal) => Ok((temporal, next)),
        Err(part) => Err(refuse_part(place, part)),
    }
}

// The numbers that the bytes at `at` are.
fn stored_in(storage: Storage, s: &[u8], at: usize) -> Stored
    requires { at + temporal_size storage ≤ length s.now }
    ensures whole { (result.whole ≡ whole_in storage (take (temporal_size storage) (drop at s.now))) × (result.whole < 256 ^ whole_bytes storage) }
    ensures units { result.units ≡ units_in storage (take (temporal_size storage) (drop at s.now)) }
    ensures width { result.width.bytes ≡ fraction_size storage }
{
    let k = whole_bytes(storage);
    let width = fraction_width(storage);
    if is_big(storage) {
        let whole = wire::read_be(s, at, k);
        let units = wire::read_be(s, at + k, width.bytes);
        return Stored {
            whole,
            units,
            width,
        };
    }
    Stored {
        whole: wire::read_le(s, at, k),
        units: 0,
        width,
    }
}

// What a stored whole part and fraction say.
#[tactic(auto, using(crate::proofs::DirectLaws::judged), unfolding(crate::specs::Storage::whole_bytes, crate::specs::Storage::fraction_size))]
fn judge(storage: Storage, stored: Stored) -> Result<Temporal, u8>
    requires whole { stored.whole < 256 ^ whole_bytes storage }
    requires width { stored.width.bytes ≡ fraction_size storage }
    ensures { result ≡ ranged (fault_of storage stored.whole stored.units) (temporal_of storage stored.whole stored.units) }
{
    match storage {
        Storage::Timestamp | Storage::Timestamp2 { .. } => my_timestamp_from_binary(stored),
        Storage::OldTime => time_by(Radices::DECIMALS, false, stored.whole, 0),
        Storage::OldDatetime => datetime_by(Radices::DECIMALS, stored.whole, 0),
        Storage::Newdate => date_of(stored.whole),
        Storage::Datetime2 { .. } => datetime_from_packed(my_datetime_packed_from_binary(stored)),
        Storage::Time2 { .. } => time_from_packed(my_time_packed_from_binary(stored)),
    }
}
