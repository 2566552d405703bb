// Parts of the lent bytes behind their lengths (io.rs: checked_eat_u8_str, checked_eat_lenenc_str), each with the place after it.
ghost use Rattle.std.specs.Prelude.{◌≡◌};
ghost use Rattle.table_map.specs.Parts.{short_part, long_part};

use wire::{Part, Refusal, read_packed, within};

// The part behind its length in the byte at `at`.
#[tactic(auto, unfolding(crate::specs::Parts::short_part))]
pub(crate) fn short_part(s: &[u8], at: usize) -> Result<(Part, usize), Refusal>
    ensures { result ≡ short_part s.now at }
{
    let start = within(s, at, 1, at)?;
    let len = usize::from(s[at]);
    let next = within(s, start, len, at)?;
    Ok((Part { start, len }, next))
}

// The part behind the packed length at `at`.
#[tactic(auto, unfolding(crate::specs::Parts::long_part))]
pub(crate) fn long_part(s: &[u8], at: usize) -> Result<(Part, usize), Refusal>
    ensures { result ≡ long_part s.now at }
{
    let (len, start) = read_packed(s, at)?;
    let len = len as usize;
    let next = within(s, start, len, at)?;
    Ok((Part { start, len }, next))
}
