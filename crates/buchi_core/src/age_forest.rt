//! Age forests as data.

ghost use Rattle.std.specs.Prelude.{◌≡◌, ◌≤◌, length};
ghost use Rattle.buchi_core.specs.declared.age_forest.TheConstants.{MOST_ENTRIES};

use crate::entry::Entry;
use cyc_basics::limits::MOST_POSITIONS;

/// Entries of a forest, at most: each has a position that is no other's.
pub(crate) const MOST_ENTRIES: usize = MOST_POSITIONS as usize;

/// A forest: its entries, oldest first. Entries without a parent are siblings. It tells which positions traces have
/// come from and where they have progressed, as Safra's trees do (Safra 1988); an entry is known by its age alone, as
/// in Piterman's compact trees (Piterman 2007). Forests are equal where these entries are.
#[derive(Clone, Copy, Drop)]
pub struct AgeForest {
    pub(crate) entries: [Entry; MOST_ENTRIES],
    pub(crate) len: u8,
    ghost long: { length entries ≡ MOST_ENTRIES },
    ghost few: { len ≤ MOST_ENTRIES },
}
