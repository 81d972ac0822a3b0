// Which labels differ: for each label below 64, the mask of those that differences join with it.
ghost use Rattle.std.specs.Prelude.{ℕ, ◌≡◌, ◌<◌, ◌≤◌, ◌^◌, ◌++◌, ◌&&◌, ◌||◌, IsTrue, length, map, filter, get_or, nat_eq};
ghost use Rattle.std.specs.Prelude.{slice_index, IfOk};
ghost use Rattle.std.specs.Simd.Lanes.{mask_l};
ghost use Rattle.cyc_basics.specs.Bits.{is_one};
ghost use Rattle.heap_formula.specs.Words.{Each};
ghost use Rattle.pair_family.specs.Labels.{row, has_difference, different_pairs, AreNear, AreSmall};
ghost use Rattle.pair_family.specs.Masks.{pairs_in};

use crate::states::labels::{far_pairs, push_if};
use crate::states::masks::bit_if;
use crate::states::pairs::PairSet;
use std::alloc::{AllocError, Global};

/// The mask of one label, empty if it isn't below 64.
fn bit_of(label: u64) -> u64
    ensures { (q : ℕ) → q < 64 → is_one result q ≡ nat_eq label q }
{
    if label < 64 { 1 << label } else { 0 }
}

/// Adds that one label differs from another, if both are below 64.
fn add_near(near: &mut [u64; 64], label: u64, other: u64)
    requires long { length near.old ≡ 64 }
    ensures long { length near.new ≡ 64 }
    ensures added { (p q : ℕ) → p < 64 → q < 64
        → is_one (get_or near.new p 0) q ≡ (is_one (get_or near.old p 0) q || (nat_eq label p && nat_eq other q)) }
{
    let place = label as usize;
    if place < 64 {
        near[place] |= bit_of(other);
    }
}

/// Makes the table of which labels these differences join, in place of what it was.
fn set_near(near: &mut [u64; 64], differences: &[(u64, u64)])
    ensures { AreNear differences.now near.new }
{
    *near = [0; 64];
    for difference in differences {
        let (left, right) = *difference;
        add_near(near, left, right);
        add_near(near, right, left);
    }
}

/// Whether all labels are below 64.
fn are_small(labels: &[u64]) -> bool
    ensures { IsTrue result → AreSmall labels.now }
{
    for label in labels {
        if *label >= 64 {
            return false;
        }
    }
    true
}

/// Whether the mask has the label.
fn has_bit(mask: u64, label: u64) -> bool
    requires { label < 64 }
    ensures { result ≡ is_one mask label }
{
    (mask >> label) % 2 == 1
}

/// The pairs (i, j) whose labels some difference joins, for this j.
fn push_near(
    pairs: &mut Vec<(usize, usize)>,
    near: &[u64; 64],
    labels: &[u64],
    differences: &[(u64, u64)],
    j: usize,
) -> Result<(), AllocError>
    requires near { AreNear differences.now near.now }
    requires small { AreSmall labels.now }
    requires there { j < length labels.now }
    ensures { IfOk result (λ _. pairs.new.items
        ≡ pairs.old.items ++ filter (has_difference labels.now differences.now) (row j j)) }
{
    let mask = near[labels[j] as usize];
    for i in 0..j {
        push_if(pairs, has_bit(mask, labels[i]), (i, j))?;
    }
    Ok(())
}

/// The pairs of classes that some difference joins, as a list.
#[tactic(auto, using(crate::proofs::Rows::next_row))]
fn near_pairs(
    alloc: Global,
    near: &[u64; 64],
    labels: &[u64],
    differences: &[(u64, u64)],
) -> Result<Vec<(usize, usize)>, AllocError>
    requires near { AreNear differences.now near.now }
    requires small { AreSmall labels.now }
    ensures { IfOk result (λ v. v.items ≡ different_pairs labels.now differences.now) }
{
    let mut pairs = Vec::with_capacity(alloc, differences.len())?;
    for j in 0..labels.len() {
        push_near(&mut pairs, near, labels, differences, j)?;
    }
    Ok(pairs)
}

/// Bit k of the mask is whether label k is in a set.
fn set_row(labels: &[u64], set: u64) -> u64
    requires small { AreSmall labels.now }
    requires few { length labels.now ≤ 63 }
    ensures { result ≡ mask_l (map (is_one set) labels.now) }
{
    let mut mask = 0;
    let mut bit = 1;
    for label in labels {
        mask += bit_if(has_bit(set, *label), bit);
        bit *= 2;
    }
    mask
}

/// The pairs of classes that some difference joins, as a mask.
fn near_mask(near: &[u64; 64], labels: &[u64], _differences: &[(u64, u64)]) -> u64
    requires near { AreNear _differences.now near.now }
    requires small { AreSmall labels.now }
    requires few { length labels.now ≤ 11 }
    ensures within { result < 2 ^ 55 }
    ensures pairs { pairs_in result ≡ different_pairs labels.now _differences.now }
{
    let mut mask = 0;
    let mut bits = 0;
    for j in 0..labels.len() {
        mask += set_row(&labels[..j], near[labels[j] as usize]) << bits;
        bits += j;
    }
    mask
}

/// The pairs of classes that some difference joins, where all labels are below 64.
fn near_set(
    alloc: Global,
    labels: &[u64],
    differences: &[(u64, u64)],
) -> Result<PairSet, AllocError>
    requires { AreSmall labels.now }
    ensures { IfOk result (λ s. s ≡ different_pairs labels.now differences.now) }
{
    let mut near = [0; 64];
    set_near(&mut near, differences);
    if labels.len() <= 11 {
        return Ok(PairSet::from_mask(near_mask(&near, labels, differences)));
    }
    let pairs = near_pairs(alloc, &near, labels, differences)?;
    Ok(PairSet::from_list(pairs))
}

/// The pairs of classes that some difference joins.
pub fn differing_set(
    alloc: Global,
    labels: &[u64],
    differences: &[(u64, u64)],
) -> Result<PairSet, AllocError>
    ensures { IfOk result (λ s. s ≡ different_pairs labels.now differences.now) }
{
    if are_small(labels) {
        return near_set(alloc, labels, differences);
    }
    let pairs = far_pairs(alloc, labels, differences)?;
    Ok(PairSet::from_list(pairs))
}
