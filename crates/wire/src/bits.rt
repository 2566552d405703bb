// Bits of a slice of bytes, numbered from the lowest of each byte up (Lsb0) or from the highest down (Msb0), as the Rust's BitSlice has
// them.
ghost use Rattle.std.specs.Prelude.{◌≡◌, ◌<◌, get_or};
ghost use Rattle.wire.specs.Bits.{bytes_for, digit, bit_lsb0, bit_msb0};

// How many bytes n bits take. The sum of n and 7 may be too large to be made.
pub fn bytes_for(n: usize) -> usize
    ensures { result ≡ bytes_for n }
{
    n / 8 + (n % 8 + 7) / 8
}

// Bit i, the lowest of each byte first; a bit past the bytes is not set.
pub fn bit_lsb0(s: &[u8], i: usize) -> bool
    ensures { result ≡ bit_lsb0 s.now i }
{
    digit_at(s, i / 8, i % 8)
}

// Bit i, the highest of each byte first; a bit past the bytes is not set.
pub fn bit_msb0(s: &[u8], i: usize) -> bool
    ensures { result ≡ bit_msb0 s.now i }
{
    digit_at(s, i / 8, 7 - i % 8)
}

// Digit j of a byte is the one that weighs 2 to the j, whichever order the bits are numbered in: both orders come down to digits.
fn digit_at(s: &[u8], at: usize, j: usize) -> bool
    requires { j < 8 }
    ensures { result ≡ digit (get_or s.now at 0) j }
{
    if s.len() <= at {
        return false;
    }
    digit_of(s[at], j)
}

fn digit_of(x: u8, j: usize) -> bool
    requires { j < 8 }
    ensures { result ≡ digit x j }
{
    (x >> j) % 2 == 1
}
