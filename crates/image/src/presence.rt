// Bits of presence, one for each column of the record, the lowest of each byte first.
ghost use Rattle.std.specs.Prelude.{◌≡◌, ◌-◌};
ghost use Rattle.image.specs.Present.{count_bits, first_from};

// How many of the first n bits are set. A sum by hand: `filter` and `count` take more than twice as long.
#[tactic(auto, using(crate::proofs::PresenceLaws::Firsts::counting))]
pub fn count_bits(s: &[u8], n: usize) -> usize
    ensures { result ≡ count_bits s.now n }
{
    let mut count = 0;
    for i in 0..n {
        count += usize::from(wire::bit_lsb0(s, i));
    }
    count
}

// The first set bit from `from` on and below n, or n; `from` itself if that is past n.
pub fn first_set(s: &[u8], from: usize, n: usize) -> usize
    ensures { result ≡ first_from (n - from) s.now from }
{
    (from..n)
        .find(|&i| wire::bit_lsb0(s, i))
        .unwrap_or(from.max(n))
}
