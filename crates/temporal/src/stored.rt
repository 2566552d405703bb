// What is stored of a temporal: two numbers.
ghost use Rattle.std.specs.Prelude.{◌≡◌, ◌*◌, ◌^◌, ◌<◌};
ghost use Rattle.temporal.specs.Fraction.{unit_of};

use crate::fraction::Width;

// The whole part, and behind it the units of the fraction, as many as its bytes can tell.
#[derive(Clone, Copy)]
pub(crate) struct Stored {
    pub(crate) whole: u64,
    pub(crate) units: u64,
    pub(crate) width: Width,
    pub(crate) ghost told: { units < 256 ^ width.bytes },
}

impl Stored {
    // The fraction in microseconds.
    #[tactic(auto, using(crate::proofs::Units::unit_room))]
    pub(crate) fn micros(self) -> u64
        ensures { result ≡ self.units * unit_of self.width.bytes }
    {
        self.units * self.width.unit()
    }
}
