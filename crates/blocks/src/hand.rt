// The bytes at hand: what the carry holds, and the block behind it.
ghost use Rattle.std.specs.Prelude.{◌≡◌, ◌++◌, ◌<◌, get_or};
ghost use Rattle.wire.specs.Bits.{bit_lsb0};
ghost use Rattle.blocks.specs.Inner.Hands.{Heads};

use std::array;

#[derive(Clone, Copy)]
pub(crate) struct Hand<'a> {
    pub held: &'a [u8],
    pub block: &'a [u8],
}

impl Hand<'_> {
    // One of the bytes; 0 past them.
    pub(crate) fn byte(self, i: usize) -> u8
        ensures { result ≡ get_or (self.entry.held.now ++ self.entry.block.now) i 0 }
    {
        match self.held.get(i) {
            Some(byte) => *byte,
            None => self.block.get(i - self.held.len()).copied().unwrap_or(0),
        }
    }

    // One of their bits, the lowest of each byte first.
    #[tactic(auto, using(crate::proofs::Hands::bit_front, crate::proofs::Hands::bit_behind))]
    pub(crate) fn bit(self, i: usize) -> bool
        ensures { result ≡ bit_lsb0 (self.entry.held.now ++ self.entry.block.now) i }
    {
        let held = self.held;
        if i / 8 < held.len() {
            return wire::bit_lsb0(held, i);
        }
        wire::bit_lsb0(self.block, i - 8 * held.len())
    }

    // The first eight from a place on, with zeros behind them.
    pub(crate) fn head(self, from: usize) -> [u8; 8]
        requires { from < 65536 }
        ensures { Heads (self.entry.held.now ++ self.entry.block.now) from result 8 }
    {
        array::from_fn(|i| self.byte(from + i))
    }
}
