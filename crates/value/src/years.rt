// YEAR, as the manual has it: byte 0 is the year 0000, bytes 1 to 255 are 1901 to 2155.
ghost use Rattle.std.specs.Prelude.{◌≡◌};
ghost use Rattle.value.specs.Years.{year_of, byte_of_year, in_years};

// The year that a byte says.
#[tactic(auto, using(wire::proofs::Rules::tests))]
pub(crate) fn year_of(byte: u8) -> u16
    ensures { result ≡ year_of byte }
{
    if byte == 0 {
        return 0;
    }
    1900 + u16::from(byte)
}

// The byte of a year.
pub(crate) fn byte_of_year(year: u16) -> u16
    ensures { result ≡ byte_of_year year }
{
    year.saturating_sub(1900)
}

// Whether there is such a year.
#[tactic(auto, using(wire::proofs::Rules::tests))]
pub(crate) fn in_years(year: u16) -> bool
    ensures { result ≡ in_years year }
{
    matches!(year, 0 | 1901..=2155)
}
