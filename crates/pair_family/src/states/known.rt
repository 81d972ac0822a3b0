// What is known of some terms.
ghost use Rattle.std.specs.Prelude.{◌≡◌, ◌<◌, ◌+◌, MatchOption};

use crate::states::digests::{digest_of, digest_with};
use crate::states::pairs::PairSet;
use std::alloc::AllocError;
use std::hash::{Hash, Hasher};
use std::marker::Model;

/// A base pair: which of nil and the parameters of a predicate are equal, which differ, and which are cells; or the
/// same of the terms that are kept, by number.
#[derive(Drop)]
pub struct Known {
    same: PairSet,
    differ: PairSet,
    cells: Vec<usize>,
}

impl Model for Known {
    ghost use Rattle.pair_family.specs.BasePairs.{BasePair};

    ghost Value = { BasePair };

    ghost view = { λ k. record { same = k.same; differ = k.differ; cells = k.cells.items } };
}

impl PartialEq for Known {
    ghost use Rattle.std.specs.Prelude.{◌≡◌};
    ghost use Rattle.pair_family.specs.Equality.{base_pair_eq, base_pair_per};

    ghost eq = { base_pair_eq };

    ghost laws = { base_pair_per };

    fn eq(&self, other: &Known) -> bool {
        self.same == other.same && self.differ == other.differ && self.cells == other.cells
    }
}

impl Eq for Known {
    ghost use Rattle.pair_family.specs.Equality.{base_pair_equiv};

    ghost laws = { base_pair_equiv };
}

impl Hash for Known {
    ghost use Rattle.pair_family.specs.Equality.{base_pair_alike, base_pair_writes};

    ghost hash_input = { base_pair_writes };

    ghost respects_eq = { base_pair_alike };

    fn hash<H: Hasher>(&self, state: &mut H) {
        let pairs = digest_with(digest_with(0, self.same.digest()), self.differ.digest());
        digest_with(pairs, digest_of(&self.cells)).hash(state);
    }
}

impl Clone for Known {
    ghost use Rattle.std.specs.Prelude.{◌≡◌};

    ghost is_clone = { λ known copy. copy ≡ known };

    fn clone(&self) -> Result<Known, AllocError> {
        let same = self.same.clone()?;
        let differ = self.differ.clone()?;
        let cells = self.cells.clone()?;
        Ok(Known::of_sets(same, differ, cells))
    }
}

impl Known {
    ghost use Rattle.pair_family.specs.LargeCases.{size_of};

    /// These equal pairs, different pairs and cells.
    pub fn new(same: Vec<(usize, usize)>, differ: Vec<(usize, usize)>, cells: Vec<usize>) -> Known
        ensures { result ≡ record { same = same.items; differ = differ.items; cells = cells.items } }
    {
        Known::of_sets(PairSet::from_list(same), PairSet::from_list(differ), cells)
    }

    /// The same of pairs as they are held.
    pub(crate) fn of_sets(same: PairSet, differ: PairSet, cells: Vec<usize>) -> Known
        ensures { result ≡ record { same = same; differ = differ; cells = cells.items } }
    {
        Known {
            same,
            differ,
            cells,
        }
    }

    /// The pairs of numbers of one class, the lesser first.
    pub(crate) fn same(&self) -> &PairSet
        ensures { result.now ≡ self.now.same }
    {
        &self.same
    }

    /// The pairs of numbers whose classes differ, the lesser first.
    pub(crate) fn differ(&self) -> &PairSet
        ensures { result.now ≡ self.now.differ }
    {
        &self.differ
    }

    /// The least numbers of the classes that are cells.
    pub(crate) fn cells(&self) -> &[usize]
        ensures { result.now ≡ self.now.cells }
    {
        &self.cells
    }

    /// What is left of some room after it: it takes one more than the number of its facts. None where that is too much.
    pub fn room_after(&self, room: usize) -> Option<usize>
        ensures { MatchOption result (room < size_of self.now) (λ left. left + size_of self.now ≡ room) }
    {
        let left = room.checked_sub(1)?;
        let left = left.checked_sub(self.same.len())?;
        let left = left.checked_sub(self.differ.len())?;
        left.checked_sub(self.cells.len())
    }
}
