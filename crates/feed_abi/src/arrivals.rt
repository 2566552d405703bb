// An image that arrives in blocks.
ghost use Rattle.std.specs.Prelude.{◌≡◌, ◌∷◌, []};
ghost use Rattle.wire.specs.Stored.{answer_of, left_of};
ghost use Rattle.value_parts.specs.Parts.{padded};
ghost use Rattle.blocks.specs.Gives.{give_block};
ghost use Rattle.blocks.specs.Ends.{end_blocks};
ghost use Rattle.feed_abi.specs.Answers.{status_of, numbers_left, bytes_left};
ghost use Rattle.feed_abi.specs.Calls.{said, said_with};
ghost use Rattle.feed_abi.specs.Blocks.{phase_number, phase_asked, state_numbers, state_asked, arrived_numbers, ended};
ghost use Rattle.feed_abi.specs.Blocks.{feed_begin, feed_give, feed_end};
ghost use Rattle.feed_abi.specs.Inner.Blocks.{given_told};

use crate::answer::{NO_NUMBERS, joined, tell};
use blocks::{Arrival, Arriving, Given, Phase};
use value::Value;
use value_parts::{parts_of, sort_of};
use wire::Refusal;

// What arrives beside values, each with a number that no sort of value has. They stay numbers: callers in C read them.
const END: u64 = 0;

const MORE: u64 = 12;

const LONG: u64 = 13;

const PART: u64 = 14;

// A phase is not converted by From, nor a number by TryFrom: neither the traits nor the type are of this crate. The numbers are C's, so they stand
// here.
fn phase_number(phase: Phase) -> u64
    ensures { result ≡ phase_number phase }
{
    match phase {
        Phase::Open => 0,
        Phase::Long => 1,
        Phase::Closed => 2,
    }
}

// The phase that a number asks for: every number from 2 on is the closed one.
fn phase_asked(phase: u64) -> Phase
    ensures { result ≡ phase_asked phase }
{
    match phase {
        0 => Phase::Open,
        1 => Phase::Long,
        _ => Phase::Closed,
    }
}

fn state_asked(phase: u64, column: usize, held: usize, left: usize, used: usize) -> Arriving
    ensures { result ≡ state_asked phase column held left used }
{
    Arriving {
        phase: phase_asked(phase),
        column,
        held,
        left,
        used,
    }
}

fn state_numbers(at: Arriving) -> [u64; 5]
    ensures { result ≡ state_numbers at }
{
    [
        phase_number(at.phase),
        at.column as u64,
        at.held as u64,
        at.left as u64,
        at.used as u64,
    ]
}

#[tactic(auto, unfolding(crate::specs::Blocks::feed_begin))]
fn begin(profile: &[u8], presence: &[u8], carry: &[u8]) -> Result<[u64; 5], Refusal>
    ensures { result ≡ feed_begin profile.now presence.now carry.now }
{
    let at = blocks::begin(profile, presence, carry)?;
    Ok(state_numbers(at))
}

// What has no value has no parts but a number of bytes.
#[tactic(auto, unfolding(value_parts::specs::Parts::padded))]
fn bytes_alone(bytes: usize) -> [u64; 7]
    ensures { result ≡ padded 7 (bytes ∷ []) }
{
    [bytes as u64, 0, 0, 0, 0, 0, 0]
}

// What a call answered: the next state, sort, column, bytes taken, and parts.
#[tactic(auto, unfolding(crate::specs::Blocks::told_block, value_parts::specs::Parts::padded))]
fn arrived(given: Given) -> Result<[u64; 15], Refusal>
    ensures { result ≡ said arrived_numbers (given_told given) }
{
    let (sort, column, parts) = match given.arrival? {
        Arrival::More => (MORE, 0, bytes_alone(0)),
        Arrival::Null { column } => (sort_of(Value::Null), column, parts_of(Value::Null)),
        Arrival::Value { column, value } => (sort_of(value), column, parts_of(value)),
        Arrival::Long { column, len } => (LONG, column, bytes_alone(len)),
        Arrival::Part { column, len } => (PART, column, bytes_alone(len)),
        Arrival::End { used } => (END, 0, bytes_alone(used)),
    };
    let taken = [sort, column as u64, given.taken as u64];
    let front: [u64; 8] = joined(state_numbers(given.next), taken);
    Ok(joined(front, parts))
}

#[tactic(auto, using(crate::proofs::Arrives::given_back, crate::proofs::Arrives::left_back))]
fn give(
    profile: &[u8],
    presence: &[u8],
    carry: &mut [u8],
    block: &[u8],
    at: Arriving,
) -> Result<[u64; 15], Refusal>
    ensures value { result
        ≡ answer_of (said_with arrived_numbers (give_block profile.now presence.now at carry.old block.now)) }
    ensures carry_after { carry.new
        ≡ left_of (said_with arrived_numbers (give_block profile.now presence.now at carry.old block.now))
        carry.old }
{
    arrived(at.give(profile, presence, carry, block))
}

#[tactic(auto, using(crate::proofs::Arrives::ended_back))]
fn end(profile: &[u8], presence: &[u8], carry: &[u8], at: Arriving) -> Result<[u64; 15], Refusal>
    ensures { result ≡ said (λ n. arrived_numbers (ended n)) (end_blocks profile.now presence.now at carry.now) }
{
    arrived(at.end(profile, presence, carry))
}

// The state that an image begins with: phase, column, held, left, used.
#[tactic(auto, using(crate::proofs::Leaves::leaves))]
pub fn feed_begin(profile: &[u8], presence: &[u8], carry: &[u8], out: &mut [u64]) -> u64
    ensures value { result ≡ status_of 5 (feed_begin profile.now presence.now carry.now) out.old }
    ensures out_after { out.new
        ≡ numbers_left 5 (feed_begin profile.now presence.now carry.now) out.old }
{
    if out.len() < 5 {
        return NO_NUMBERS;
    }
    tell(begin(profile, presence, carry), out)
}

// Takes bytes from the front of the block, as many as one answer needs, to any state: the next state, sort, column, bytes taken, and seven
// parts.
#[tactic(auto, using(crate::proofs::Leaves::leaves), unfolding(crate::specs::Blocks::feed_give))]
pub fn feed_give(
    profile: &[u8],
    presence: &[u8],
    carry: &mut [u8],
    block: &[u8],
    phase: u64,
    column: usize,
    held: usize,
    left: usize,
    used: usize,
    out: &mut [u64],
) -> u64
    ensures value { result
        ≡ status_of 15 (answer_of (feed_give profile.now presence.now carry.old block.now phase
        column held left used)) out.old }
    ensures out_after { out.new
        ≡ numbers_left 15 (answer_of (feed_give profile.now presence.now carry.old block.now phase
        column held left used)) out.old }
    ensures carry_after { carry.new
        ≡ bytes_left 15 (feed_give profile.now presence.now carry.old block.now phase column held
        left used) out.old carry.old }
{
    // Before anything is written to the carry.
    if out.len() < 15 {
        return NO_NUMBERS;
    }
    let at = state_asked(phase, column, held, left, used);
    tell(give(profile, presence, carry, block, at), out)
}

// No more bytes come: the end, with the bytes used, in the layout of `feed_give`. The next state is the closed one.
#[tactic(auto, using(crate::proofs::Leaves::leaves), unfolding(crate::specs::Blocks::feed_end))]
pub fn feed_end(
    profile: &[u8],
    presence: &[u8],
    carry: &[u8],
    phase: u64,
    column: usize,
    held: usize,
    left: usize,
    used: usize,
    out: &mut [u64],
) -> u64
    ensures value { result
        ≡ status_of 15 (feed_end profile.now presence.now carry.now phase column held left used)
        out.old }
    ensures out_after { out.new
        ≡ numbers_left 15 (feed_end profile.now presence.now carry.now phase column held left used)
        out.old }
{
    if out.len() < 15 {
        return NO_NUMBERS;
    }
    let at = state_asked(phase, column, held, left, used);
    tell(end(profile, presence, carry, at), out)
}
