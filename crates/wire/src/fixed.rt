// Numbers of 0 to 8 bytes, the least or the most significant byte first (io.rs: eat_u*_le, eat_u*_be, put_*).
// A width over 8 is taken as 8.
ghost use Rattle.std.specs.Prelude.{◌≡◌, ◌≤◌, ◌<◌, ◌^◌, min, length, take, drop};
ghost use Rattle.wire.specs.Number.{le_value, be_value, le_bytes, be_bytes};
ghost use Rattle.wire.specs.Stored.{store, answer_of, left_of};

use crate::refusal::Refusal;
use crate::store::{has_room, write_some};

// A byte as a u64. It stays beside `u64::from`, since it is public and promises/specs/Calls.antt has a line for it.
pub fn wide(x: u8) -> u64
    ensures { result ≡ x }
{
    u64::from(x)
}

// The bytes from at on.
fn rest(s: &[u8], at: usize) -> &[u8]
    ensures { result.now ≡ drop at s.now }
{
    if s.len() <= at {
        return &s[0..0];
    }
    &s[at..]
}

// The number of at most eight bytes, the least significant first. Each count of bytes has an arm of its own, of which the compiler makes plain
// loads: a copy of as many as there are would be a call of memcpy, which the library for C would then need from outside.
#[inline]
pub(crate) fn le(bytes: &[u8]) -> u64
    requires { length bytes.now ≤ 8 }
    ensures { (result ≡ le_value bytes.now) × (result < 256 ^ length bytes.now) }
{
    match *bytes {
        [a] => u64::from_le_bytes([a, 0, 0, 0, 0, 0, 0, 0]),
        [a, b] => u64::from_le_bytes([a, b, 0, 0, 0, 0, 0, 0]),
        [a, b, c] => u64::from_le_bytes([a, b, c, 0, 0, 0, 0, 0]),
        [a, b, c, d] => u64::from_le_bytes([a, b, c, d, 0, 0, 0, 0]),
        [a, b, c, d, e] => u64::from_le_bytes([a, b, c, d, e, 0, 0, 0]),
        [a, b, c, d, e, f] => u64::from_le_bytes([a, b, c, d, e, f, 0, 0]),
        [a, b, c, d, e, f, g] => u64::from_le_bytes([a, b, c, d, e, f, g, 0]),
        [a, b, c, d, e, f, g, h] => u64::from_le_bytes([a, b, c, d, e, f, g, h]),
        _ => 0,
    }
}

// The same, the most significant first. The two orders stand side by side here and below, as std's own two functions do: a trait over them
// would be longer than both.
#[inline]
fn be(bytes: &[u8]) -> u64
    requires { length bytes.now ≤ 8 }
    ensures { (result ≡ be_value bytes.now) × (result < 256 ^ length bytes.now) }
{
    match *bytes {
        [a] => u64::from_be_bytes([0, 0, 0, 0, 0, 0, 0, a]),
        [a, b] => u64::from_be_bytes([0, 0, 0, 0, 0, 0, a, b]),
        [a, b, c] => u64::from_be_bytes([0, 0, 0, 0, 0, a, b, c]),
        [a, b, c, d] => u64::from_be_bytes([0, 0, 0, 0, a, b, c, d]),
        [a, b, c, d, e] => u64::from_be_bytes([0, 0, 0, a, b, c, d, e]),
        [a, b, c, d, e, f] => u64::from_be_bytes([0, 0, a, b, c, d, e, f]),
        [a, b, c, d, e, f, g] => u64::from_be_bytes([0, a, b, c, d, e, f, g]),
        [a, b, c, d, e, f, g, h] => u64::from_be_bytes([a, b, c, d, e, f, g, h]),
        _ => 0,
    }
}

// The number of the k bytes from at, the least significant first: of those that are there.
#[inline]
pub fn read_le(s: &[u8], at: usize, k: usize) -> u64
    ensures value { result ≡ le_value (take (min k 8) (drop at s.now)) }
    ensures upper_bound { result < 256 ^ min k 8 }
{
    let width = k.min(8);
    if !has_room(s.len(), at, width) {
        return le(rest(s, at));
    }
    le(&s[at..at + width])
}

// The number of the k bytes from at, the most significant first: of those that are there, and in the same way.
#[inline]
pub fn read_be(s: &[u8], at: usize, k: usize) -> u64
    ensures value { result ≡ be_value (take (min k 8) (drop at s.now)) }
    ensures upper_bound { result < 256 ^ min k 8 }
{
    let width = k.min(8);
    if !has_room(s.len(), at, width) {
        return be(rest(s, at));
    }
    be(&s[at..at + width])
}

// Writes the k low bytes of v from at on, the least significant first.
pub fn write_le(k: usize, v: u64, buf: &mut [u8], at: usize) -> Result<usize, Refusal>
    ensures result_value { result ≡ answer_of (store (le_bytes (min k 8) v) buf.old at) }
    ensures buf_after { buf.new ≡ left_of (store (le_bytes (min k 8) v) buf.old at) buf.old }
{
    write_some(&v.to_le_bytes()[..k.min(8)], buf, at)
}

// Writes the k low bytes of v from at on, the most significant first.
pub fn write_be(k: usize, v: u64, buf: &mut [u8], at: usize) -> Result<usize, Refusal>
    ensures result_value { result ≡ answer_of (store (be_bytes (min k 8) v) buf.old at) }
    ensures buf_after { buf.new ≡ left_of (store (be_bytes (min k 8) v) buf.old at) buf.old }
{
    write_some(&v.to_be_bytes()[8 - k.min(8)..], buf, at)
}
