// Packed ("length-encoded") integers (io.rs: read_lenenc_int, put_lenenc_int; misc/mod.rs: lenenc_int_len), and those of a width, whose
// readers answer alike.
ghost use Rattle.std.specs.Prelude.{◌≡◌, ◌∷◌, ◌≤◌, ◌<◌, min, length};
ghost use Rattle.wire.specs.Number.{le_bytes};
ghost use Rattle.wire.specs.Packed.{read_fixed, read_packed, long_form, packed_bytes};
ghost use Rattle.wire.specs.Stored.{store, answer_of, left_of};

use crate::fixed::{le, read_le, wide};
use crate::part::within;
use crate::refusal::{NOT_PACKED, Refusal, SHORT, refuse};
use crate::store::write_some;

// The number of the k bytes at `at`, the least significant first, and the place after them: of all of them, or of none. A width over 8 is taken as 8.
#[tactic(auto, unfolding(crate::specs::Packed::read_fixed))]
pub fn read_fixed(s: &[u8], at: usize, k: usize) -> Result<(u64, usize), Refusal>
    ensures { result ≡ read_fixed (min k 8) s.now at }
{
    let next = within(s, at, k.min(8), at)?;
    Ok((read_le(s, at, k), next))
}

// The packed integer at `at`, and the place after it.
#[tactic(auto, using(crate::proofs::Rules::tests), unfolding(crate::specs::Packed::read_packed, crate::specs::Packed::packed_form))]
pub fn read_packed(s: &[u8], at: usize) -> Result<(u64, usize), Refusal>
    ensures { result ≡ read_packed s.now at }
{
    if s.len() <= at {
        return Err(refuse(SHORT, at));
    }
    let first = s[at];
    if first <= 250 {
        let next = at + 1;
        return Ok((wide(first), next));
    }
    if first == 252 {
        return read_long(s, at, 2);
    }
    if first == 253 {
        return read_long(s, at, 3);
    }
    if first == 254 {
        return read_long(s, at, 8);
    }
    Err(refuse(NOT_PACKED, at))
}

// A form whose value is in the k bytes behind its first, which is at `at`.
// It tests its end itself: tried with `within`, and the check alone did not close it.
fn read_long(s: &[u8], at: usize, k: usize) -> Result<(u64, usize), Refusal>
    requires { (k ≤ 8) × (at < length s.now) }
    ensures { result ≡ long_form s.now at k }
{
    let body = at + 1;
    if s.len() - body < k {
        return Err(refuse(SHORT, at));
    }
    let next = body + k;
    Ok((le(&s[body..next]), next))
}

// How many bytes the shortest form of v takes.
pub fn packed_size(v: u64) -> usize
    ensures { result ≡ length (packed_bytes v) }
{
    if v <= 250 {
        return 1;
    }
    if v < 65536 {
        return 3;
    }
    if v < 16777216 {
        return 4;
    }
    9
}

// Writes v from at on, in its shortest form.
pub fn write_packed(v: u64, buf: &mut [u8], at: usize) -> Result<usize, Refusal>
    ensures result_value { result ≡ answer_of (store (packed_bytes v) buf.old at) }
    ensures buf_after { buf.new ≡ left_of (store (packed_bytes v) buf.old at) buf.old }
{
    if v <= 250 {
        return write_form(v as u8, 0, 0, buf, at);
    }
    if v < 65536 {
        return write_form(252, 2, v, buf, at);
    }
    if v < 16777216 {
        return write_form(253, 3, v, buf, at);
    }
    write_form(254, 8, v, buf, at)
}

// Writes the byte first and the k low bytes of v after it.
fn write_form(first: u8, k: usize, v: u64, buf: &mut [u8], at: usize) -> Result<usize, Refusal>
    requires { k ≤ 8 }
    ensures result_value { result ≡ answer_of (store (first ∷ le_bytes k v) buf.old at) }
    ensures buf_after { buf.new ≡ left_of (store (first ∷ le_bytes k v) buf.old at) buf.old }
{
    let mut form = [0u8; 9];
    form[0] = first;
    form[1..].copy_from_slice(&v.to_le_bytes());
    write_some(&form[..k + 1], buf, at)
}
