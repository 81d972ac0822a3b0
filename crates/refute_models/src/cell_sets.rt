// Sets of cells.

/// A set of cells of a heap at the addresses 1 to 64: the bit below an address says whether it is in.
#[derive(Clone, Copy, PartialEq, Eq)]
pub struct CellSet {
    bits: u64,
}

impl CellSet {
    /// No cell.
    pub const EMPTY: CellSet = CellSet { bits: 0 };

    /// The cell at an address alone; no cell where the address is another number.
    pub fn single(address: u64) -> CellSet {
        if address > 0 && address <= 64 {
            CellSet {
                bits: 1 << (address - 1),
            }
        } else {
            CellSet::EMPTY
        }
    }

    /// The cells of both sets.
    pub fn with(self, other: CellSet) -> CellSet {
        CellSet {
            bits: self.bits | other.bits,
        }
    }

    /// Whether a cell is in both sets.
    pub fn meets(self, other: CellSet) -> bool {
        self.bits & other.bits != 0
    }

    /// The cells at the addresses up to a number.
    pub fn up_to(count: u64) -> CellSet {
        let mut all = CellSet::EMPTY;
        for address in 1..count.min(64) + 1 {
            all = all.with(CellSet::single(address));
        }
        all
    }
}
