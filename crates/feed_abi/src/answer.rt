// What every call leaves: a status, and numbers at the start of the buffer that was lent for them.
ghost use Rattle.std.specs.Prelude.{◌≡◌, ◌+◌, ◌≤◌, ◌++◌, length};
ghost use Rattle.wire.specs.Stored.{stored};
ghost use Rattle.feed_abi.specs.Answers.{status_of, numbers_left};
ghost use Rattle.feed_abi.specs.Calls.{part_numbers, given_numbers, names_given};

use wire::refusal::NO_ROOM;
use wire::{Part, Refusal};

// The status of a call whose buffer of numbers is too short. Each call tests that before anything else, so a call that cannot tell its
// answer changes nothing and costs nothing. `as`, since a constant calls no From.
pub(crate) const NO_NUMBERS: u64 = NO_ROOM as u64;

// Puts the numbers at the start of out.
#[tactic(auto, unfolding(wire::specs::Stored::stored))]
fn put_numbers(numbers: &[u64], out: &mut [u64])
    requires { length numbers.now ≤ length out.old }
    ensures { out.new ≡ stored numbers.now out.old 0 }
{
    out[..numbers.len()].copy_from_slice(numbers);
}

// Tells the numbers of an answer, with the status 0. Of a refusal the number is the status, and its place and its part are told: so a call
// has room for two numbers.
#[tactic(auto, unfolding(crate::specs::Answers::status_of, crate::specs::Answers::numbers_left))]
pub(crate) fn tell<const N: usize>(answer: Result<[u64; N], Refusal>, out: &mut [u64]) -> u64
    requires refusal { 2 ≤ N }
    requires room { N ≤ length out.old }
    ensures value { result ≡ status_of N answer.entry out.old }
    ensures out_after { out.new ≡ numbers_left N answer.entry out.old }
{
    match answer {
        Ok(numbers) => {
            put_numbers(&numbers, out);
            0
        }
        Err(refusal) => {
            put_numbers(&[refusal.place as u64, u64::from(refusal.part)], out);
            u64::from(refusal.number)
        }
    }
}

// One array laid behind another.
pub(crate) fn joined<const K: usize, const L: usize, const N: usize>(
    front: [u64; K],
    back: [u64; L],
) -> [u64; N]
    requires { N ≡ K + L }
    ensures { result ≡ front.entry ++ back.entry }
{
    let mut all = [0; N];
    let lent = &mut all[..];
    lent[..K].copy_from_slice(&front);
    lent[K..].copy_from_slice(&back);
    all
}

// A cursor's two numbers are told by a function of its own in `rows`: a trait for the two would be longer than both.
pub(crate) fn part_numbers(part: Part) -> [u64; 2]
    ensures { result ≡ part_numbers part }
{
    [part.start as u64, part.len as u64]
}

// A part that may be absent: 1 with its start and length, or zeros.
pub(crate) fn given_numbers(part: Option<Part>) -> [u64; 3]
    ensures { result ≡ given_numbers (names_given part) }
{
    match part {
        Some(part) => [1, part.start as u64, part.len as u64],
        None => [0; 3],
    }
}
