// Parts of the lent bytes: where they stand.
ghost use Rattle.std.specs.Prelude.{◌≡◌};
ghost use Rattle.wire.specs.Parts.{lent_part, within};

use crate::refusal::{Refusal, SHORT, refuse};
use crate::store::has_room;

// A part of the lent bytes. It may run past them.
#[derive(Clone, Copy, Debug, PartialEq, Eq)]
pub struct Part {
    pub start: usize,
    pub len: usize,
}

// The bytes of a part, none where it runs past those lent.
pub fn part_of(s: &[u8], part: Part) -> &[u8]
    ensures { result.now ≡ lent_part s.now part }
{
    let start = part.start;
    if has_room(s.len(), start, part.len) {
        let end = start + part.len;
        return &s[start..end];
    }
    &s[0..0]
}

// The place after the n bytes from at on; if they end early, the refusal is placed at `place`.
pub fn within(s: &[u8], at: usize, n: usize, place: usize) -> Result<usize, Refusal>
    ensures { result ≡ within s.now at n place }
{
    if has_room(s.len(), at, n) {
        let next = at + n;
        return Ok(next);
    }
    Err(refuse(SHORT, place))
}
