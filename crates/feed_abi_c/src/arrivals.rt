ghost use Rattle.std.specs.Prelude.{◌≡◌};
ghost use Rattle.wire.specs.Stored.{answer_of};
ghost use Rattle.feed_abi.specs.Answers.{status_of, numbers_left, bytes_left};
ghost use Rattle.feed_abi.specs.Blocks.{feed_begin, feed_give, feed_end};

// The state that an image begins with: phase, column, held, left, used.
#[unsafe(no_mangle)]
pub extern "C" fn feed_begin(profile: &[u8], presence: &[u8], carry: &[u8], out: &mut [u64]) -> u64
    ensures value { result ≡ status_of 5 (feed_begin profile.now presence.now carry.now) out.old }
    ensures out_after { out.new
        ≡ numbers_left 5 (feed_begin profile.now presence.now carry.now) out.old }
{
    feed_abi::feed_begin(profile, presence, carry, out)
}

// Takes bytes from the front of the block, as many as one answer needs, to any state: the next state, sort, column, bytes taken, and seven
// parts.
#[unsafe(no_mangle)]
pub extern "C" fn feed_give(
    profile: &[u8],
    presence: &[u8],
    carry: &mut [u8],
    block: &[u8],
    phase: u64,
    column: usize,
    held: usize,
    left: usize,
    used: usize,
    out: &mut [u64],
) -> u64
    ensures value { result
        ≡ status_of 15 (answer_of (feed_give profile.now presence.now carry.old block.now phase
        column held left used)) out.old }
    ensures out_after { out.new
        ≡ numbers_left 15 (answer_of (feed_give profile.now presence.now carry.old block.now phase
        column held left used)) out.old }
    ensures carry_after { carry.new
        ≡ bytes_left 15 (feed_give profile.now presence.now carry.old block.now phase column held
        left used) out.old carry.old }
{
    feed_abi::feed_give(
        profile, presence, carry, block, phase, column, held, left, used, out,
    )
}

// No more bytes come: the end, with the bytes used, in the layout of `feed_give`. The next state is the closed one.
#[unsafe(no_mangle)]
pub extern "C" fn feed_end(
    profile: &[u8],
    presence: &[u8],
    carry: &[u8],
    phase: u64,
    column: usize,
    held: usize,
    left: usize,
    used: usize,
    out: &mut [u64],
) -> u64
    ensures value { result
        ≡ status_of 15 (feed_end profile.now presence.now carry.now phase column held left used)
        out.old }
    ensures out_after { out.new
        ≡ numbers_left 15 (feed_end profile.now presence.now carry.now phase column held left used)
        out.old }
{
    feed_abi::feed_end(
        profile, presence, carry, phase, column, held, left, used, out,
    )
}
