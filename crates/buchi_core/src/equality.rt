//! Forests are compared by the entries that they hold, whatever the rest of the array has.

ghost use Rattle.std.proofs.Common.{rules};
ghost use Rattle.std.specs.Cmp.{partial_equiv_from_equiv};
ghost use Rattle.std.specs.Cmp.Rules.{hashing};
ghost use Rattle.buchi_core.specs.Equality.{entry_writes, forest_eq, forest_equiv};

use crate::age_forest::AgeForest;
use crate::entry::Entry;
use crate::list::entries_in;
use std::hash::{Hash, Hasher};

impl PartialEq for AgeForest {
    ghost eq = { forest_eq };

    ghost laws = { partial_equiv_from_equiv forest_equiv };

    fn eq(&self, other: &AgeForest) -> bool {
        entries_in(self) == entries_in(other)
    }
}

impl Eq for AgeForest {
    ghost laws = { forest_equiv };
}

/// An entry is hashed by its set alone: within a forest, the sets tell the parents. An empty high half is left out.
impl Hash for Entry {
    ghost hash_input = { entry_writes };

    ghost respects_eq = { Prim.search (hashing, rules) };

    fn hash<H: Hasher>(&self, state: &mut H) {
        self.low.hash(state);
        if self.high != 0 {
            self.high.hash(state);
        }
    }
}
