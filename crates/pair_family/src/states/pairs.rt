// Pairs of numbers: a mask where the numbers are small, and else a list.
ghost use Rattle.std.specs.Prelude.{◌≡◌, ◌<◌, ◌++◌, ◌^◌, [], length, filter, IfOk};
ghost use Rattle.pair_family.specs.Combination.{pairs_below};
ghost use Rattle.pair_family.specs.Equality.{pairs_digest};
ghost use Rattle.pair_family.specs.Labels.{has_same, joined_labels, label_pairs, pairs_at};
ghost use Rattle.pair_family.specs.Masks.{pairs_in};

use crate::states::digests::digest_of_pairs;
use crate::states::labels::{
    join_masked, join_masked_places, join_pairs, join_placed, push_label_pairs, push_masked_pairs,
    push_masked_places, push_placed_pairs, same_pairs,
};
use crate::states::masks::{has_pairs, same_mask};
use std::alloc::{AllocError, Global};
use std::marker::Model;

/// The pairs of a mask, or those of a list.
#[derive(Drop)]
enum PairForm {
    Masked(u64),
    Listed(Vec<(usize, usize)>),
}

/// Pairs of numbers, in their order.
#[derive(Drop)]
pub struct PairSet {
    form: PairForm,
}

impl Model for PairSet {
    ghost use Rattle.std.specs.Prelude.{ℕ, List};

    ghost Value = { List (ℕ × ℕ) };

    ghost use Rattle.pair_family.specs.PairForms.{pairs_of_form, IsForm};

    ghost view = { λ s. pairs_of_form s.form };

    ghost invariant = { λ s. IsForm s.form };
}

impl PartialEq for PairSet {
    ghost use Rattle.std.specs.Prelude.{◌≡◌};
    ghost use Rattle.std.specs.Cmp.Lexicographic.{pointwise};
    ghost use Rattle.pair_family.specs.Equality.{two_eq, pairs_per};

    ghost eq = { pointwise two_eq };

    ghost laws = { pairs_per };

    fn eq(&self, other: &PairSet) -> bool {
        match (&self.form, &other.form) {
            (PairForm::Masked(mask), PairForm::Masked(others)) => *mask == *others,
            (PairForm::Masked(mask), PairForm::Listed(list)) => has_pairs(*mask, list),
            (PairForm::Listed(list), PairForm::Masked(mask)) => has_pairs(*mask, list),
            (PairForm::Listed(list), PairForm::Listed(others)) => *list == *others,
        }
    }
}

impl Clone for PairSet {
    ghost use Rattle.std.specs.Prelude.{◌≡◌};

    ghost is_clone = { λ set copy. copy ≡ set };

    fn clone(&self) -> Result<PairSet, AllocError> {
        match &self.form {
            PairForm::Masked(mask) => Ok(PairSet::from_mask(*mask)),
            PairForm::Listed(list) => {
                let copy = list.clone()?;
                Ok(PairSet::from_list(copy))
            }
        }
    }
}

impl PairSet {
    /// The pairs of a mask.
    pub fn from_mask(mask: u64) -> PairSet
        requires { mask < 2 ^ 55 }
        ensures { result ≡ pairs_in mask }
    {
        PairSet {
            form: PairForm::Masked(mask),
        }
    }

    /// The pairs of a list.
    pub fn from_list(pairs: Vec<(usize, usize)>) -> PairSet
        ensures { result ≡ pairs.items }
    {
        if pairs.is_empty() {
            return PairSet::from_mask(0);
        }
        PairSet {
            form: PairForm::Listed(pairs),
        }
    }

    pub fn len(&self) -> usize
        ensures { result ≡ length self.now }
    {
        match &self.form {
            PairForm::Masked(mask) => mask.count_ones() as usize,
            PairForm::Listed(list) => list.len(),
        }
    }

    /// A digest of the pairs, in their order.
    pub fn digest(&self) -> u64
        ensures { result ≡ pairs_digest self.now }
    {
        match &self.form {
            PairForm::Masked(mask) => *mask,
            PairForm::Listed(list) => digest_of_pairs(list),
        }
    }

    /// Joins the labels of the two numbers of each pair.
    pub fn join(&self, labels: &mut Vec<u64>)
        ensures { labels.new.items ≡ joined_labels labels.old.items self.now }
    {
        match &self.form {
            PairForm::Masked(mask) => join_masked(labels, *mask),
            PairForm::Listed(list) => join_pairs(labels, list),
        }
    }

    /// Joins the labels of the numbers at some places.
    pub fn join_at(&self, labels: &mut Vec<u64>, places: &[usize])
        ensures { labels.new.items ≡ joined_labels labels.old.items (pairs_at places.now self.now) }
    {
        match &self.form {
            PairForm::Masked(mask) => join_masked_places(labels, places, *mask),
            PairForm::Listed(list) => join_placed(labels, places, list),
        }
    }

    /// Adds the labels of the numbers of each pair.
    pub fn push_labels(&self, out: &mut Vec<(u64, u64)>, labels: &[u64]) -> Result<(), AllocError>
        ensures { IfOk result (λ _. out.new.items ≡ out.old.items ++ label_pairs labels.now self.now) }
    {
        match &self.form {
            PairForm::Masked(mask) => push_masked_pairs(out, labels, *mask),
            PairForm::Listed(list) => push_label_pairs(out, labels, list),
        }
    }

    /// Adds the labels of the numbers at some places.
    pub fn push_labels_at(
        &self,
        out: &mut Vec<(u64, u64)>,
        labels: &[u64],
        places: &[usize],
    ) -> Result<(), AllocError>
        ensures { IfOk result (λ _. out.new.items
            ≡ out.old.items ++ label_pairs labels.now (pairs_at places.now self.now)) }
    {
        match &self.form {
            PairForm::Masked(mask) => push_masked_places(out, labels, places, *mask),
            PairForm::Listed(list) => push_placed_pairs(out, labels, places, list),
        }
    }
}

/// The pairs of one class.
pub fn same_set(alloc: Global, labels: &[u64]) -> Result<PairSet, AllocError>
    ensures { IfOk result (λ s. s ≡ filter (has_same labels.now) (pairs_below (length labels.now))) }
{
    if labels.len() <= 11 {
        return Ok(PairSet::from_mask(same_mask(labels)));
    }
    let pairs = same_pairs(alloc, labels)?;
    Ok(PairSet::from_list(pairs))
}
