//! Entries of age forests.

ghost use Rattle.std.specs.Prelude.{◌<◌, ◌^◌};

/// An entry of a forest: the place of an older entry, its parent, if it has one; and a set of positions, one bit for
/// each, in two halves, so that an entry takes 12 bytes. In a forest the set is never empty.
#[derive(Clone, Copy, Drop, PartialEq, Eq)]
pub struct Entry {
    pub(crate) parent: Option<u8>,
    pub(crate) low: u32,
    pub(crate) high: u32,
    ghost low_fits: { low < 2 ^ 32 },
    ghost high_fits: { high < 2 ^ 32 },
}

impl Default for Entry {
    fn default() -> Self {
        Entry {
            parent: None,
            low: 0,
            high: 0,
        }
    }
}
