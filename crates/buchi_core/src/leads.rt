//! Tables of where pairs lead.

ghost use Rattle.std.specs.Prelude.{◌≡◌, length};
ghost use Rattle.buchi_core.specs.declared.age_forest.TheConstants.{MOST_ENTRIES};

use crate::age_forest::MOST_ENTRIES;

/// Where pairs lead: the mask of the positions that some pair leads from, and for each of these the mask of those that
/// pairs lead to from it. What stands at other places is left from earlier pairs, and counts for nothing.
#[derive(Drop)]
pub(crate) struct Leads {
    pub(crate) sources: u64,
    pub(crate) targets: [u64; MOST_ENTRIES],
    ghost long: { length targets ≡ MOST_ENTRIES },
}

/// Where an edge's pairs lead, all of them and those that progress.
#[derive(Drop)]
pub(crate) struct Moves {
    pub(crate) all: Leads,
    pub(crate) progress: Leads,
}

/// Where no pairs lead.
fn no_leads() -> Leads {
    Leads {
        sources: 0,
        targets: [0; MOST_ENTRIES],
    }
}

/// Where no pairs lead.
pub(crate) fn no_moves() -> Moves {
    Moves {
        all: no_leads(),
        progress: no_leads(),
    }
}
