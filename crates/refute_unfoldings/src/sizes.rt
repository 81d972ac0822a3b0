// How many unfoldings a predicate needs at least.
use cyc_basics::memory::OutOfMemory;
use heap_formula::{Heap, Spatial};
use pred_defs::Defs;
use std::alloc::Global;

/// For each case of each predicate the least number of unfoldings after which no predicate is left; none where there is
/// always one left.
#[derive(Drop)]
pub struct Sizes {
    cases: Vec<Vec<Option<u32>>>,
}

impl Sizes {
    /// The sizes of these definitions.
    pub fn new(alloc: Global, defs: &Defs) -> Result<Sizes, OutOfMemory> {
        let mut sizes = Sizes {
            cases: Vec::new(alloc),
        };
        for def in defs.as_slice() {
            let row = vec![in alloc; None; def.cases.heaps().len()]?;
            sizes.cases.push(row)?;
        }
        for _ in 0..=defs.as_slice().len() {
            if !sizes.improve(defs) {
                break;
            }
        }
        Ok(sizes)
    }

    /// The size of a case.
    pub fn of_case(&self, predicate: u16, case: usize) -> Option<u32> {
        match self.cases.get(predicate as usize)?.get(case) {
            Some(size) => *size,
            None => None,
        }
    }

    /// The least of the sizes of a predicate's cases.
    pub fn of_predicate(&self, predicate: u16) -> Option<u32> {
        let mut least: Option<u32> = None;
        for size in self.cases.get(predicate as usize)?.iter().flatten() {
            least = match least {
                Some(least) => Some(least.min(*size)),
                None => Some(*size),
            };
        }
        least
    }

    fn of_body(&self, case: &Heap) -> Option<u32> {
        let mut sum: u32 = 1;
        for atom in case.spatial() {
            if let Spatial::Pred(predicate, _) = atom {
                sum = sum.saturating_add(self.of_predicate(*predicate)?);
            }
        }
        Some(sum)
    }

    fn note(&mut self, predicate: usize, case: usize, size: Option<u32>) -> bool {
        let Some(row) = self.cases.get_mut(predicate) else {
            return false;
        };
        match row.get_mut(case) {
            Some(entry) => {
                let is_new = *entry != size;
                *entry = size;
                is_new
            }
            None => false,
        }
    }

    /// Looks at the cases of a predicate again; whether a size changed.
    fn improve_one(&mut self, predicate: usize, cases: &[Heap]) -> bool {
        let mut is_changed = false;
        for (number, case) in cases.iter().enumerate() {
            let size = self.of_body(case);
            is_changed = self.note(predicate, number, size) || is_changed;
        }
        is_changed
    }

    /// Looks at all cases again; whether a size changed.
    fn improve(&mut self, defs: &Defs) -> bool {
        let mut is_changed = false;
        for (number, def) in defs.as_slice().iter().enumerate() {
            is_changed = self.improve_one(number, def.cases.heaps()) || is_changed;
        }
        is_changed
    }
}
