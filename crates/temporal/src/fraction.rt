// The fraction of a second: how many bytes it takes, and what one unit of it is.
ghost use Rattle.std.specs.Prelude.{◌≡◌, ◌/◌, ◌^◌, ◌≤◌};
ghost use Rattle.temporal.specs.Fraction.{fraction_bytes, unit_of};
ghost use Rattle.temporal.specs.Domains.{in_units};

// How many bytes a fraction takes.
#[derive(Clone, Copy)]
pub(crate) struct Width {
    pub(crate) bytes: usize,
    pub(crate) ghost few: { bytes ≤ 3 },
}

impl Width {
    // Of whole seconds.
    pub(crate) const NONE: Width = Width { bytes: 0 };

    // Of a column that declares m0 digits.
    #[tactic(auto, using(wire::proofs::Rules::tests), unfolding(crate::specs::Fraction::fraction_bytes))]
    pub(crate) fn of_digits(m0: u8) -> Width
        ensures { result.bytes ≡ fraction_bytes m0 }
    {
        let bytes = match m0 {
            0 => 0,
            1..=2 => 1,
            3..=4 => 2,
            _ => 3,
        };
        Width { bytes }
    }

    // Microseconds in one unit.
    #[tactic(auto, unfolding(crate::specs::Fraction::unit_of))]
    pub(crate) fn unit(self) -> u64
        ensures { result ≡ unit_of self.bytes }
    {
        match self.bytes {
            0 => 1_000_000,
            1 => 10_000,
            2 => 100,
            _ => 1,
        }
    }

    // How many fractions its bytes tell apart.
    pub(crate) fn span(self) -> u64
        ensures { result ≡ 256 ^ self.bytes }
    {
        match self.bytes {
            0 => 1,
            1 => 0x100,
            2 => 0x1_0000,
            _ => 0x100_0000,
        }
    }

    // How many whole units the microseconds are.
    #[tactic(auto, using(crate::proofs::Units::unit_positive))]
    pub(crate) fn units_of(self, micros: u32) -> u64
        ensures { result ≡ micros / unit_of self.bytes }
    {
        u64::from(micros) / self.unit()
    }

    // Whether they are whole units.
    #[tactic(auto, using(crate::proofs::Units::unit_positive))]
    pub(crate) fn has_units(self, micros: u32) -> bool
        ensures { result ≡ in_units self.bytes micros }
    {
        u64::from(micros) % self.unit() == 0
    }
}
