// What was lent and tested.
ghost use Rattle.std.specs.Prelude.{◌≡◌, ◌≤◌, length, true};
ghost use Rattle.wire.specs.Bits.{bytes_for};
ghost use Rattle.record.specs.Records.{count_of, record_valid};
ghost use Rattle.image.specs.Present.{count_bits};

use crate::state::Arriving;
use image::Head;

// A valid record and presence bits of its length, with what they say.
#[derive(Clone, Copy)]
pub(crate) struct Lent<'a> {
    pub profile: &'a [u8],
    pub presence: &'a [u8],
    pub head: Head,
    ghost valid: { record_valid profile.now ≡ true },
    ghost bits: { length presence.now ≡ bytes_for (count_of profile.now) },
    ghost columns: { head.columns ≡ count_of profile.now },
    ghost nulls: { head.nulls ≡ bytes_for (count_bits presence.now head.columns) },
}

// A state over them, and the carry that it speaks of.
#[derive(Clone, Copy)]
pub(crate) struct Seat<'a> {
    pub lent: Lent<'a>,
    pub carry: &'a [u8],
    pub at: Arriving,
    ghost among: { at.column ≤ lent.head.columns },
    ghost fits: { at.held ≤ length carry.now },
}
