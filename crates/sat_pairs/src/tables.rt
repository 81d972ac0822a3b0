// Tables of base pairs.
ghost use Rattle.std.specs.Prelude.{◌≡◌, ◌<◌, [], length, IfOk, replicate};
ghost use Rattle.pair_family.specs.Tables.{pairs_of};
ghost use Rattle.sat_pairs.specs.Growth.{IsAddedTo};

use cyc_basics::memory::OutOfMemory;
use indexmap::IndexSet;
use pair_family::states::{Known, add};
use std::alloc::Global;
use std::marker::Model;

/// A list of base pairs for each predicate by its number, in the order in which they were found.
#[derive(Drop)]
pub struct Table {
    rows: Vec<IndexSet<Known>>,
}

impl Model for Table {
    ghost use Rattle.std.specs.Prelude.{map};
    ghost use Rattle.pair_family.specs.Tables.{Table as Pairs};

    ghost Value = { Pairs };

    ghost view = { λ t. map (λ s. s.keys) t.rows.items };
}

impl Table {
    /// The base pairs of a predicate by its number; none where there is no such predicate.
    pub fn pairs(&self, pred: u16) -> &[Known]
        ensures { result.now ≡ pairs_of self.now pred }
    {
        if (pred as usize) < self.rows.len() {
            self.rows[pred as usize].as_slice()
        } else {
            &[]
        }
    }

    /// No base pairs for each of n predicates.
    pub(crate) fn empty(alloc: Global, n: usize) -> Result<Table, OutOfMemory>
        ensures { IfOk result (λ t. t ≡ replicate n []) }
    {
        let mut rows = Vec::new(alloc);
        for _ in 0..n {
            rows.push(IndexSet::new(alloc))?;
        }
        Ok(Table { rows })
    }

    /// Adds a base pair of a predicate, unless it is there.
    pub(crate) fn insert(&mut self, pred: u16, known: Known) -> Result<bool, OutOfMemory>
        requires { pred < length self.old }
        ensures { IfOk result (λ b. IsAddedTo self.old self.new pred known b) }
    {
        let is_new = add(&mut self.rows[pred as usize], known)?;
        Ok(is_new)
    }
}
