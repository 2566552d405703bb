// A state and the block that is given to it: one call.
ghost use Rattle.std.specs.Prelude.{◌≡◌, ◌+◌, ◌-◌, ◌≤◌, ◌<◌, length, take};
ghost use Rattle.wire.specs.Stored.{stored};
ghost use Rattle.blocks.specs.Inner.Hands.{took_by};

use crate::state::{Arrival, Arriving, BlockGiven};

// Neither the bytes used nor those at hand can become too many to be counted. The carry goes beside it: in a struct that held it as `&mut`
// each contract would have to say that it stays the same reference.
#[derive(Clone, Copy)]
pub(crate) struct Call<'a> {
    pub at: Arriving,
    pub block: &'a [u8],
    ghost used_fits: { at.used + length block.now < 18446744073709551616 },
    ghost held_fits: { at.held + length block.now < 18446744073709551616 },
}

impl Call<'_> {
    // So many bytes are taken: `next` is the state behind them, but for the bytes used.
    pub(crate) fn took(self, taken: usize, arrival: Arrival, next: Arriving) -> BlockGiven
        requires { taken ≤ length self.block.now }
        ensures { result ≡ took_by self.entry.at taken arrival next }
    {
        let used = self.at.used + taken;
        BlockGiven {
            arrival,
            taken,
            next: Arriving { used, ..next },
        }
    }

    // The bytes of the block up to `upto`, counted from the front of the carry, go behind what the carry holds: how many these are.
    pub(crate) fn commit(self, carry: &mut [u8], upto: usize) -> usize
        requires { (self.at.held ≤ length carry.old) × (upto ≤ length carry.old) × (upto ≤ self.at.held + length self.block.now) }
        ensures value { result ≡ upto - self.entry.at.held }
        ensures carry_after { let call = self.entry in
            carry.new ≡ stored (take (upto - call.at.held) call.block.now) carry.old call.at.held }
    {
        let held = self.at.held;
        let taken = upto.saturating_sub(held);
        let _ = wire::write_bytes(&self.block[..taken], carry, held);
        taken
    }

    // The answer of a call that takes the bytes up to `upto`.
    pub(crate) fn take_to(
        self,
        carry: &mut [u8],
        upto: usize,
        arrival: Arrival,
        next: Arriving,
    ) -> BlockGiven
        requires { (self.at.held ≤ length carry.old) × (upto ≤ length carry.old) × (upto ≤ self.at.held + length self.block.now) }
        ensures value { let at = self.entry.at in result ≡ took_by at (upto - at.held) arrival next }
        ensures carry_after { let call = self.entry in
            carry.new ≡ stored (take (upto - call.at.held) call.block.now) carry.old call.at.held }
    {
        let taken = self.commit(carry, upto);
        self.took(taken, arrival, next)
    }
}
