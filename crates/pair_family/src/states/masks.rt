// Masks of pairs of small numbers: bit k is for pair k of a table.
ghost use Rattle.std.specs.Prelude.{◌≡◌, ◌≤◌, ◌<◌, ◌^◌, ◌∷◌, ◌≢◌, length, map, filter, nat_eq, if◌then◌else◌};
ghost use Rattle.std.specs.Simd.Lanes.{mask_l};
ghost use Rattle.std.specs.Cmp.Lexicographic.{pointwise};
ghost use Rattle.pair_family.specs.Combination.{pairs_below};
ghost use Rattle.pair_family.specs.Equality.{two_eq};
ghost use Rattle.pair_family.specs.Labels.{has_same};
ghost use Rattle.pair_family.specs.Masks.{pairs_in};

/// The pairs of numbers below 11, the lesser first, one for each bit of a mask.
static MASKED_PAIRS: [(usize, usize); 55] = [
    (0, 1),
    (0, 2),
    (1, 2),
    (0, 3),
    (1, 3),
    (2, 3),
    (0, 4),
    (1, 4),
    (2, 4),
    (3, 4),
    (0, 5),
    (1, 5),
    (2, 5),
    (3, 5),
    (4, 5),
    (0, 6),
    (1, 6),
    (2, 6),
    (3, 6),
    (4, 6),
    (5, 6),
    (0, 7),
    (1, 7),
    (2, 7),
    (3, 7),
    (4, 7),
    (5, 7),
    (6, 7),
    (0, 8),
    (1, 8),
    (2, 8),
    (3, 8),
    (4, 8),
    (5, 8),
    (6, 8),
    (7, 8),
    (0, 9),
    (1, 9),
    (2, 9),
    (3, 9),
    (4, 9),
    (5, 9),
    (6, 9),
    (7, 9),
    (8, 9),
    (0, 10),
    (1, 10),
    (2, 10),
    (3, 10),
    (4, 10),
    (5, 10),
    (6, 10),
    (7, 10),
    (8, 10),
    (9, 10),
];

/// The first pair of a mask that has some, and the mask without it.
pub fn first_pair(mask: u64) -> ((usize, usize), u64)
    requires some { mask ≢ 0 }
    requires within { mask < 2 ^ 55 }
    ensures first { pairs_in mask ≡ result.0 ∷ pairs_in result.1 }
    ensures less { result.1 < mask }
{
    let place = mask.trailing_zeros();
    (MASKED_PAIRS[place as usize], mask & !(1 << place))
}

/// The bit where that is so, and else nothing.
pub fn bit_if(holds: bool, bit: u64) -> u64
    ensures { result ≡ (if holds then bit else 0) }
{
    if holds { bit } else { 0 }
}

/// Bit k of the mask is whether label k is this one.
fn same_row(labels: &[u64], label: u64) -> u64
    requires { length labels.now ≤ 63 }
    ensures { result ≡ mask_l (map (λ l. nat_eq l label) labels.now) }
{
    let mut mask = 0;
    let mut bit = 1;
    for other in labels {
        mask += bit_if(*other == label, bit);
        bit *= 2;
    }
    mask
}

/// The mask of the pairs of one class.
pub fn same_mask(labels: &[u64]) -> u64
    requires { length labels.now ≤ 11 }
    ensures within { result < 2 ^ 55 }
    ensures pairs { pairs_in result ≡ filter (has_same labels.now) (pairs_below (length labels.now)) }
{
    let mut mask = 0;
    let mut bits = 0;
    for j in 0..labels.len() {
        mask += same_row(&labels[..j], labels[j]) << bits;
        bits += j;
    }
    mask
}

/// Whether a list has the pairs of a mask.
pub fn has_pairs(mask: u64, pairs: &[(usize, usize)]) -> bool
    requires { mask < 2 ^ 55 }
    ensures { result ≡ pointwise two_eq (pairs_in mask) pairs.now }
{
    let mut rest = mask;
    for pair in pairs {
        if rest == 0 {
            return false;
        }
        let (first, others) = first_pair(rest);
        if first != *pair {
            return false;
        }
        rest = others;
    }
    rest == 0
}
