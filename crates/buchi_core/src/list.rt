//! Forests as lists of entries.

ghost use Rattle.std.specs.Prelude.{◌≡◌, ◌<◌, [], ◌∷◌, ◌++◌, length};
ghost use Rattle.buchi_core.specs.View.{entries_of, forest_of, used};

use crate::age_forest::{AgeForest, MOST_ENTRIES};
use crate::entry::Entry;

/// The forest without an entry.
pub(crate) fn empty() -> AgeForest
    ensures { used result ≡ [] }
{
    AgeForest {
        entries: [Entry {
            parent: None,
            low: 0,
            high: 0,
        }; MOST_ENTRIES],
        len: 0,
    }
}

/// Takes all entries out of a forest.
pub(crate) fn clear(forest: &mut AgeForest)
    ensures { used forest.new ≡ [] }
{
    forest.len = 0;
}

/// The entries of a forest, oldest first.
pub fn entries_in(forest: &AgeForest) -> &[Entry]
    ensures used { result.now ≡ used forest.now }
    ensures value { entries_of result.now ≡ forest_of forest.now }
{
    &forest.entries[..forest.len as usize]
}

/// Appends a youngest entry.
pub(crate) fn append(forest: &mut AgeForest, entry: Entry)
    requires room { length (used forest.old) < MOST_ENTRIES }
    ensures { used forest.new ≡ used forest.old ++ (entry ∷ []) }
{
    let place = forest.len as usize;
    forest.entries[place] = entry;
    forest.len += 1;
}
