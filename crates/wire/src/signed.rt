// Two's complement in 0 to 8 bytes. A width over 8 is taken as 8.
ghost use Rattle.std.specs.Prelude.{◌≡◌, ◌+◌, ◌-◌, ◌^◌, min};
ghost use Rattle.wire.specs.Signed.{signed_of, twos_of, in_halves};
ghost use Rattle.wire.specs.Inner.Signed.{magnitude_of};

// The greatest number of 0 to 8 bytes.
const TOPS: [u64; 9] = [
    0,
    255,
    65535,
    16777215,
    4294967295,
    1099511627775,
    281474976710655,
    72057594037927935,
    18446744073709551615,
];

// The greatest number of k bytes.
pub fn top_of(k: usize) -> u64
    ensures { result + 1 ≡ 256 ^ min k 8 }
{
    TOPS[k.min(8)]
}

// The signed number that is stored as x in k bytes; one past the greatest is read as the greatest, which stands for -1.
pub fn signed_of(k: usize, x: u64) -> i64
    ensures { result ≡ signed_of (256 ^ min k 8) x }
{
    let top = top_of(k);
    if x < top / 2 + top % 2 {
        return x as i64;
    }
    let n = top.saturating_sub(x);
    -1 - (n as i64)
}

// The n of a number that is n or -1 - n.
fn magnitude(z: i64) -> u64
    ensures { result ≡ magnitude_of z }
{
    if z < 0 {
        let n = -1 - z;
        n as u64
    } else {
        z as u64
    }
}

// Whether z is one of the signed numbers of k bytes.
pub fn in_halves(k: usize, z: i64) -> bool
    ensures { result ≡ in_halves (256 ^ min k 8) z }
{
    let top = top_of(k);
    magnitude(z) < top / 2 + top % 2
}

// What z is stored as in k bytes, if it is one of their numbers; else what the definition says of it.
pub fn twos_of(k: usize, z: i64) -> u64
    ensures { result ≡ twos_of (256 ^ min k 8) z }
{
    if z < 0 {
        return top_of(k).saturating_sub(magnitude(z));
    }
    magnitude(z)
}
