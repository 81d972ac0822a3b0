// Digests of numbers and of pairs, which `hash` feeds.
ghost use Rattle.std.specs.Prelude.{◌≡◌, ◌<◌};
ghost use Rattle.pair_family.specs.Equality.{with_number, numbers_digest, pairs_digest, pair_weight};

/// An odd number whose bits are mixed: 2^64 over the golden ratio.
const DIGEST_FACTOR: u64 = 0x9e37_79b9_7f4a_7c15;

/// A digest after one more number.
pub fn digest_with(digest: u64, number: u64) -> u64
    ensures { result ≡ with_number digest number }
{
    digest.wrapping_add(number).wrapping_mul(DIGEST_FACTOR)
}

/// A digest of numbers, in their order.
pub fn digest_of(numbers: &[usize]) -> u64
    ensures { result ≡ numbers_digest numbers.now }
{
    let mut digest = 0;
    for number in numbers {
        digest = digest_with(digest, *number as u64);
    }
    digest
}

/// What a pair adds to a digest: its bit in a mask, if it has one there.
fn weight_of(left: usize, right: usize) -> u64
    ensures { result ≡ pair_weight (left, right) }
{
    if left < right && right < 11 {
        1 << (right * (right - 1) / 2 + left)
    } else {
        digest_with(digest_with(0, left as u64), right as u64)
    }
}

/// A digest of pairs: the mask, where they are those of one.
pub fn digest_of_pairs(pairs: &[(usize, usize)]) -> u64
    ensures { result ≡ pairs_digest pairs.now }
{
    let mut digest = 0u64;
    for pair in pairs {
        let (left, right) = *pair;
        digest = digest.wrapping_add(weight_of(left, right));
    }
    digest
}
