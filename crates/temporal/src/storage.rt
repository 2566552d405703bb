// How a temporal is stored, by its column type.
ghost use Rattle.std.specs.Prelude.{◌≡◌, ◌≤◌};
ghost use Rattle.temporal.specs.Storage.{whole_bytes, fraction_size, is_big};
ghost use Rattle.temporal.specs.Reading.{temporal_size};

use crate::fraction::Width;

// Each storage has its column type above it. m0 is the number of fraction digits that the column declares; above 6 it is taken as 6.
#[derive(Clone, Copy, Debug, PartialEq, Eq)]
pub enum Storage {
    // 7
    Timestamp,
    // 11
    OldTime,
    // 12
    OldDatetime,
    // 14
    Newdate,
    // 17
    Timestamp2 { m0: u8 },
    // 18
    Datetime2 { m0: u8 },
    // 19
    Time2 { m0: u8 },
}

// How many bytes a stored temporal takes.
#[tactic(auto, unfolding(crate::specs::Reading::temporal_size))]
pub fn temporal_size(storage: Storage) -> usize
    ensures { result ≡ temporal_size storage }
{
    whole_bytes(storage) + fraction_width(storage).bytes
}

// How many of them are its whole part: all but the fraction.
#[tactic(auto, unfolding(crate::specs::Storage::whole_bytes))]
pub(crate) fn whole_bytes(storage: Storage) -> usize
    ensures { (result ≡ whole_bytes storage) × (result ≤ 8) }
{
    match storage {
        Storage::OldTime | Storage::Newdate | Storage::Time2 { .. } => 3,
        Storage::Timestamp | Storage::Timestamp2 { .. } => 4,
        Storage::Datetime2 { .. } => 5,
        Storage::OldDatetime => 8,
    }
}

// And how many are its fraction.
#[tactic(auto, unfolding(crate::specs::Storage::fraction_size))]
pub(crate) fn fraction_width(storage: Storage) -> Width
    ensures { result.bytes ≡ fraction_size storage }
{
    match storage {
        Storage::Timestamp2 { m0 } | Storage::Datetime2 { m0 } | Storage::Time2 { m0 } => {
            Width::of_digits(m0)
        }
        Storage::Timestamp | Storage::OldTime | Storage::OldDatetime | Storage::Newdate => {
            Width::NONE
        }
    }
}

// Whether the most significant byte comes first.
#[tactic(auto, unfolding(crate::specs::Storage::is_big))]
pub(crate) fn is_big(storage: Storage) -> bool
    ensures { result ≡ is_big storage }
{
    matches!(
        storage,
        Storage::Timestamp2 { .. } | Storage::Datetime2 { .. } | Storage::Time2 { .. }
    )
}
