// What a call leaves for the next, and what it answers.
ghost use Rattle.std.specs.Prelude.{◌≡◌};
ghost use Rattle.blocks.specs.States.{shut_with, given_of, ended_of};
ghost use Rattle.blocks.specs.Inner.Hands.{standing, longing};

use value::Value;
use wire::Refusal;

#[derive(Clone, Copy, Debug, PartialEq, Eq)]
pub enum Phase {
    Open,
    Long,
    Closed,
}

// `held` bytes stand at the front of the carry: null bits, then the value in progress, which is that of `column`. `left` bytes of a long
// value are still to come. `used` counts all bytes that were taken. `held` is a number beside the carry and no slice of it, since C lends the carry
// at each call.
#[derive(Clone, Copy, Debug, PartialEq, Eq)]
pub struct Arriving {
    pub phase: Phase,
    pub column: usize,
    pub held: usize,
    pub left: usize,
    pub used: usize,
}

// The bytes of a value stand in the carry, those of a part at the front of the block.
#[derive(Clone, Copy, Debug, PartialEq, Eq)]
pub enum Arrival {
    More,
    Null { column: usize },
    Value { column: usize, value: Value },
    Long { column: usize, len: usize },
    Part { column: usize, len: usize },
    End { used: usize },
}

// One answer, how many bytes were taken from the front of the block, and the state for the next call.
#[derive(Clone, Copy, Debug, PartialEq, Eq)]
pub struct Given {
    pub arrival: Result<Arrival, Refusal>,
    pub taken: usize,
    pub next: Arriving,
}

// The same where nothing is refused: public, since the statements of crates above name it. Two structs, and no generic one: two fields of
// three would be the same, and with an alias for each name it would be as long.
#[derive(Clone, Copy, Debug, PartialEq, Eq)]
pub struct BlockGiven {
    pub arrival: Arrival,
    pub taken: usize,
    pub next: Arriving,
}

// A refusal and the end take nothing, and close.
fn shut(arrival: Result<Arrival, Refusal>) -> Given
    ensures { result ≡ shut_with arrival }
{
    Given {
        arrival,
        taken: 0,
        next: Arriving {
            phase: Phase::Closed,
            column: 0,
            held: 0,
            left: 0,
            used: 0,
        },
    }
}

pub(crate) fn given_of(answer: Result<BlockGiven, Refusal>) -> Given
    ensures { result ≡ given_of answer }
{
    match answer {
        Ok(given) => Given {
            arrival: Ok(given.arrival),
            taken: given.taken,
            next: given.next,
        },
        Err(r) => shut(Err(r)),
    }
}

pub(crate) fn ended_of(end: Result<usize, Refusal>) -> Given
    ensures { result ≡ ended_of end }
{
    shut(end.map(|used| Arrival::End { used }))
}

// The bytes used are counted where they are taken (`Call::took`).
pub(crate) fn standing(column: usize, held: usize) -> Arriving
    ensures { result ≡ standing column held }
{
    Arriving {
        phase: Phase::Open,
        column,
        held,
        left: 0,
        used: 0,
    }
}

pub(crate) fn longing(column: usize, held: usize, left: usize) -> Arriving
    ensures { result ≡ longing column held left }
{
    Arriving {
        phase: Phase::Long,
        left,
        ..standing(column, held)
    }
}
