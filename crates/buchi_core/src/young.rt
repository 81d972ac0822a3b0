//! The entries of a step before any is dropped or lost: each is trimmed as it comes, the older ones first.

ghost use Rattle.std.specs.Prelude.{ℕ, ◌≡◌, ◌<◌, ◌+◌, [], ◌∷◌, ◌++◌, ◌&&◌, not, length, Option};
ghost use Rattle.arrayvec.specs.ArrayVec.{array_vec_len};
ghost use Rattle.buchi_core.specs.Forest.{same_parent, trimmed};
ghost use Rattle.buchi_core.specs.View.{members};
ghost use Rattle.cyc_basics.specs.Bits.{is_one};
ghost use Rattle.cyc_basics.specs.declared.limits.TheConstants.{MOST_POSITIONS};
ghost use Rattle.buchi_core.specs.Young.{AreLeft, left_of, made};

use crate::age_forest::MOST_ENTRIES;
use crate::entry::Entry;
use arrayvec::ArrayVec;

/// Entries in the middle of a step, at most: the old ones, a child of each, and a top entry.
pub(crate) const MOST_YOUNG: usize = 2 * MOST_ENTRIES + 1;

/// Entries, oldest first, and for each the mask of what it has and none of its children so far; `top` is the mask of
/// what no entry without a parent has.
#[derive(Drop)]
pub(crate) struct Young {
    pub(crate) entries: ArrayVec<Entry, MOST_YOUNG>,
    pub(crate) left: ArrayVec<u64, MOST_YOUNG>,
    pub(crate) top: u64,
}

/// No entries.
pub(crate) fn no_entries() -> Young {
    Young {
        entries: ArrayVec::new(),
        left: ArrayVec::new(),
        top: u64::MAX,
    }
}

/// Takes all entries out.
pub(crate) fn clear(young: &mut Young)
    ensures none { young.new.entries.items ≡ [] }
    ensures left { AreLeft young.new }
{
    young.entries.clear();
    young.left.clear();
    young.top = u64::MAX;
}

/// What a further child of the parent may have: nothing if there is no such entry.
pub(crate) fn left_at(young: &Young, parent: Option<u8>) -> u64
    ensures { result ≡ left_of young.now parent }
{
    match parent {
        None => young.top,
        Some(p) => match young.left.get(p as usize) {
            None => 0,
            Some(mask) => *mask,
        },
    }
}

/// Gives these positions to a child of the parent.
fn give(young: &mut Young, parent: Option<u8>, set: u64)
    ensures entries { young.new.entries ≡ young.old.entries }
    ensures long { array_vec_len young.new.left ≡ array_vec_len young.old.left }
    ensures left { (o : Option ℕ) (q : ℕ) → q < MOST_POSITIONS
        → is_one (left_of young.new o) q
        ≡ (is_one (left_of young.old o) q && not (same_parent parent o && is_one set q)) }
{
    match parent {
        None => young.top &= !set,
        Some(p) => {
            let place = p as usize;
            if place < young.left.len() {
                young.left[place] &= !set;
            }
        }
    }
}

/// Appends an entry, without what its parent lacks and what an older sibling has.
pub(crate) fn push_entry(young: &mut Young, parent: Option<u8>, set: u64)
    requires room { array_vec_len young.old.entries < MOST_YOUNG }
    requires left { AreLeft young.old }
    ensures entries { made young.new ≡ made young.old
        ++ (trimmed (made young.old) (record { parent = parent; set = members set }) ∷ []) }
    ensures long { array_vec_len young.new.entries ≡ array_vec_len young.old.entries + 1 }
    ensures left { AreLeft young.new }
{
    let kept = set & left_at(young, parent);
    give(young, parent, kept);
    young.left.push(kept);
    young.entries.push(Entry::new(parent, kept));
}
