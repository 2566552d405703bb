// The call that ends the input.
ghost use Rattle.std.specs.Prelude.{◌≡◌, ◌-◌, take};
ghost use Rattle.blocks.specs.States.{ended_of};
ghost use Rattle.blocks.specs.Ends.{end_blocks};
ghost use Rattle.blocks.specs.Inner.Hands.{due_from, end_open};

use crate::fit::is_fit;
use crate::give::read_head_carry;
use crate::lent::{Lent, Seat};
use crate::state::{Arriving, Given, Phase, ended_of};
use wire::Refusal;
use wire::refusal::{IMAGE_SHORT, UNFIT_STATE};

impl Seat<'_> {
    // The first present column from the state's on that is not NULL, or how many columns there are.
    #[tactic(auto, using(crate::proofs::Heldings::due_rules))]
    fn first_due(self) -> usize
        ensures { let s = self.entry in
            result ≡ due_from (s.lent.head.columns - s.at.column) s.lent.presence.now (take s.at.held s.carry.now) s.at.column }
    {
        let presence = self.lent.presence;
        let columns = self.lent.head.columns;
        let nulls = self.held();
        // The rank counts present columns alone, the `for` all of them.
        let mut rank = image::count_bits(presence, self.at.column);
        for j in self.at.column..columns {
            if !wire::bit_lsb0(presence, j) {
                continue;
            }
            if !wire::bit_lsb0(nulls, rank) {
                return j;
            }
            rank += 1;
        }
        columns
    }

    #[tactic(auto, unfolding(crate::specs::Inner::Hands::end_open))]
    fn end_open(self) -> Result<usize, Refusal>
        ensures { let s = self.entry in let l = s.lent in result ≡ end_open l.presence.now l.head.columns l.head.nulls s.at s.carry.now }
    {
        if self.at.held < self.lent.head.nulls {
            return Err(wire::refuse(IMAGE_SHORT, 0));
        }
        let due = self.first_due();
        if due == self.lent.head.columns {
            return Ok(self.at.used);
        }
        Err(wire::refuse(IMAGE_SHORT, due))
    }
}

#[tactic(auto, using(crate::proofs::Counts::fit_counted), unfolding(crate::specs::Ends::end_blocks, crate::specs::Ends::ended_fit, crate::specs::Ends::end_in))]
fn end_blocks<'a>(
    profile: &'a [u8],
    presence: &'a [u8],
    carry: &'a [u8],
    at: Arriving,
) -> Result<usize, Refusal>
    ensures { result ≡ end_blocks profile.now presence.now at carry.now }
{
    let head = read_head_carry(profile, presence, carry)?;
    let lent = Lent {
        profile,
        presence,
        head,
    };
    if !is_fit(lent, carry, at) {
        return Err(wire::refuse(UNFIT_STATE, 0));
    }
    match at.phase {
        Phase::Open => Seat { lent, carry, at }.end_open(),
        Phase::Long => Err(wire::refuse(IMAGE_SHORT, at.column)),
        Phase::Closed => Err(wire::refuse(UNFIT_STATE, 0)),
    }
}

impl Arriving {
    // No more bytes come: the end, with the bytes used, or refusal 9 at the first column that is not NULL and was not answered.
    pub fn end(self, profile: &[u8], presence: &[u8], carry: &[u8]) -> Given
        ensures { result ≡ ended_of (end_blocks profile.now presence.now self carry.now) }
    {
        ended_of(end_blocks(profile, presence, carry, self))
    }
}
