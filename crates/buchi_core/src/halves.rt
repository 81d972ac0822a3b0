//! The set of an entry as one mask, from its two halves.

ghost use Rattle.std.specs.Prelude.{◌≡◌};
ghost use Rattle.buchi_core.specs.Mask.{set_mask};

use crate::entry::Entry;

/// The place of the first position of the high half of a set, as a power of two.
const HALF: u64 = 4294967296;

impl Entry {
    /// The entry of this parent and set.
    pub(crate) fn new(parent: Option<u8>, set: u64) -> Entry
        ensures parent { result.parent ≡ parent }
        ensures set { set_mask result ≡ set }
    {
        Entry {
            parent,
            low: (set % HALF) as u32,
            high: (set / HALF) as u32,
        }
    }

    /// The set, one bit for each position.
    pub(crate) fn set(&self) -> u64
        ensures { result ≡ set_mask self.now }
    {
        u64::from(self.high) * HALF + u64::from(self.low)
    }
}
