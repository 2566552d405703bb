// The calls that take blocks.
ghost use Rattle.std.specs.Prelude.{◌≡◌, [], ◌<◌};
ghost use Rattle.wire.specs.Outcome.{ok};
ghost use Rattle.wire.specs.Stored.{answer_of, left_of};
ghost use Rattle.blocks.specs.States.{given_of};
ghost use Rattle.blocks.specs.Gives.{give_long, head_carry, give_block, begin_blocks};

use crate::call::Call;
use crate::fit::is_fit;
use crate::lent::Lent;
use crate::open::give_open;
use crate::state::{Arrival, Arriving, BlockGiven, Given, Phase, given_of, longing, standing};
use image::Head;
use wire::Refusal;
use wire::refusal::{SMALL_CARRY, UNFIT_STATE};

// A carry has room for the null bits of 4,096 columns, and as much again for a value.
pub const LEAST_CARRY: usize = 1024;

// The tests before any call: refusal 11 for the record, 12 for the presence bits, 20 for the carry. The three stay parameters, since that is
// what a caller lends; behind the tests they are a `Lent` and a carry.
#[tactic(auto, using(wire::proofs::Rules::tests), unfolding(crate::specs::Gives::head_carry))]
pub(crate) fn read_head_carry(
    profile: &[u8],
    presence: &[u8],
    carry: &[u8],
) -> Result<Head, Refusal>
    ensures { result ≡ head_carry profile.now presence.now carry.now }
{
    let head = image::read_head(profile, presence)?;
    if carry.len() < LEAST_CARRY {
        return Err(wire::refuse(SMALL_CARRY, 0));
    }
    Ok(head)
}

// The first state.
#[tactic(auto, unfolding(crate::specs::Gives::begin_blocks))]
pub fn begin(profile: &[u8], presence: &[u8], carry: &[u8]) -> Result<Arriving, Refusal>
    ensures { result ≡ begin_blocks profile.now presence.now carry.now }
{
    read_head_carry(profile, presence, carry)?;
    Ok(standing(0, 0))
}

// A part of a long value stores nothing.
#[tactic(auto, using(wire::proofs::Rules::tests), unfolding(crate::specs::Gives::give_long))]
fn give_long(call: Call, nulls: usize) -> BlockGiven
    requires { call.at.column < 65536 }
    ensures { ok result ≡ answer_of (give_long nulls call.entry.at [] call.entry.block.now) }
{
    let Arriving {
        column,
        held,
        left,
        ..
    } = call.at;
    let len = call.block.len();
    if len == 0 {
        return call.took(0, Arrival::More, call.at);
    }
    if left <= len {
        let part = Arrival::Part { column, len: left };
        return call.took(left, part, standing(column + 1, nulls));
    }
    let part = Arrival::Part { column, len };
    call.took(len, part, longing(column, held, left - len))
}

#[tactic(auto, unfolding(crate::specs::Gives::give_block, crate::specs::Gives::given_fit, crate::specs::Gives::give_in))]
fn give_block<'a>(
    profile: &'a [u8],
    presence: &'a [u8],
    carry: &mut [u8],
    block: &[u8],
    at: Arriving,
) -> Result<BlockGiven, Refusal>
    ensures value { result ≡ answer_of (give_block profile.now presence.now at carry.old block.now) }
    ensures carry_after { carry.new
        ≡ left_of (give_block profile.now presence.now at carry.old block.now) carry.old }
{
    let head = read_head_carry(profile, presence, carry)?;
    let lent = Lent {
        profile,
        presence,
        head,
    };
    if !is_fit(lent, carry, at) {
        return Err(wire::refuse(UNFIT_STATE, 0));
    }
    let call = Call { at, block };
    match at.phase {
        Phase::Open => give_open(lent, carry, call),
        Phase::Long => Ok(give_long(call, head.nulls)),
        Phase::Closed => Err(wire::refuse(UNFIT_STATE, 0)),
    }
}

impl Arriving {
    // Takes bytes from the front of the block, as many as one answer needs. The rest is given again, until the answer is `More` or `End`. A
    // made-up state is obeyed as it stands if it is fit.
    pub fn give(self, profile: &[u8], presence: &[u8], carry: &mut [u8], block: &[u8]) -> Given
        ensures value { result
            ≡ given_of (answer_of (give_block profile.now presence.now self carry.old
            block.now)) }
        ensures carry_after { carry.new
            ≡ left_of (give_block profile.now presence.now self carry.old block.now)
            carry.old }
    {
        given_of(give_block(profile, presence, carry, block, self))
    }
}
