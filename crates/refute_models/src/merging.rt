// The models of one unfolding, the most general first.
use cyc_basics::memory::OutOfMemory;
use refute_unfoldings::{Model, Unfolding};
use std::alloc::Global;

/// An unfolding, and those that come of it when values are made equal, breadth first and each once. The ones before
/// `next` were looked at.
#[derive(Drop)]
pub struct Merging {
    alloc: Global,
    all: Vec<Unfolding>,
    next: usize,
    most: usize,
}

impl Merging {
    /// An unfolding, of which at most so many are to come.
    pub fn new(alloc: Global, first: Unfolding, most: usize) -> Result<Merging, OutOfMemory> {
        Ok(Merging {
            alloc,
            all: vec![in alloc; first]?,
            next: 0,
            most,
        })
    }

    /// Whether as many have come as may.
    pub fn is_full(&self) -> bool {
        self.all.len() >= self.most
    }

    /// The most general model of the next unfolding, with so many entries in its stack.
    pub fn next_model(&mut self, variables: u16) -> Result<Option<Model>, OutOfMemory> {
        let Some(unfolding) = self.all.get(self.next) else {
            return Ok(None);
        };
        let model = unfolding.model(self.alloc, variables)?;
        self.next = self.next.saturating_add(1);
        Ok(Some(model))
    }

    /// The last unfolding that was looked at with two values as one, if that may be and it is new.
    fn merged(&self, model: &Model, pair: (u64, u64)) -> Result<Option<Unfolding>, OutOfMemory> {
        let Some(last) = self.all.get(self.next.saturating_sub(1)) else {
            return Ok(None);
        };
        let mut merged = last.clone()?;
        if !merged.equate(model.name(pair.0), model.name(pair.1)) {
            return Ok(None);
        }
        for other in &self.all {
            if other.has_classes_of(&merged) {
                return Ok(None);
            }
        }
        Ok(Some(merged))
    }

    /// Adds those that come of the last one when two of its model's values are one, for each of the pairs.
    pub fn merge(&mut self, model: &Model, pairs: &[(u64, u64)]) -> Result<(), OutOfMemory> {
        for pair in pairs {
            if self.is_full() {
                break;
            }
            if let Some(merged) = self.merged(model, *pair)? {
                self.all.push(merged)?;
            }
        }
        Ok(())
    }
}
