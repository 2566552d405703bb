// Where a walk over an image stands, and the tests that come before any step.
ghost use Rattle.std.specs.Prelude.{◌≡◌};
ghost use Rattle.image.specs.Split.{first_cursor, head_of};

use crate::presence::count_bits;
use wire::Refusal;
use wire::refusal::BAD_BITS;

// A column, and an offset in the image.
#[derive(Clone, Copy, Debug, PartialEq, Eq)]
pub struct Cursor {
    pub column: usize,
    pub offset: usize,
}

// What a valid record and presence bits of its length say: how many columns there are, how many of them are present, and how many bytes of
// null bits these have.
#[derive(Clone, Copy, Debug, PartialEq, Eq)]
pub struct Head {
    pub columns: usize,
    pub present: usize,
    pub nulls: usize,
}

// The tests before any call on an image: refusal 11 for the record, then 12 for the presence bits.
#[tactic(auto, using(wire::proofs::Rules::tests), unfolding(crate::specs::Split::head_of))]
pub fn read_head(profile: &[u8], presence: &[u8]) -> Result<Head, Refusal>
    ensures { result ≡ head_of profile.now presence.now }
{
    let columns = record::read_record(profile)?;
    if presence.len() != wire::bytes_for(columns) {
        return Err(wire::refuse(BAD_BITS, 0));
    }
    let present = count_bits(presence, columns);
    let nulls = wire::bytes_for(present);
    Ok(Head {
        columns,
        present,
        nulls,
    })
}

// The cursor that a walk begins with: column 0, behind the null bits.
#[tactic(auto, unfolding(crate::specs::Split::first_cursor))]
pub fn first_cursor(profile: &[u8], presence: &[u8]) -> Result<Cursor, Refusal>
    ensures { result ≡ first_cursor profile.now presence.now }
{
    let head = read_head(profile, presence)?;
    Ok(Cursor {
        column: 0,
        offset: head.nulls,
    })
}
