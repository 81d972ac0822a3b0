// Which terms equations make equal.
use cyc_basics::memory::OutOfMemory;
use heap_formula::{Pure, Term};
use std::alloc::Global;

/// Classes of equal terms: each pair sends a term to another that stands for it from then on.
#[derive(Drop)]
pub struct Classes {
    pairs: Vec<(Term, Term)>,
}

impl Classes {
    /// Every term alone.
    pub fn new(alloc: Global) -> Classes {
        Classes {
            pairs: Vec::new(alloc),
        }
    }

    /// The term that stands for a term's class; `nil` stands for its own.
    pub fn of(&self, term: Term) -> Term {
        let mut found = term;
        for (from, to) in &self.pairs {
            if *from == found {
                found = *to;
            }
        }
        found
    }

    fn join(&mut self, t: Term, u: Term) -> Result<(), OutOfMemory> {
        let (t, u) = (self.of(t), self.of(u));
        if t != u {
            let pair = if t == Term::Nil { (u, t) } else { (t, u) };
            self.pairs.push(pair)?;
        }
        Ok(())
    }

    /// Joins the classes of the terms that the equations among the atoms make equal.
    pub fn join_all(&mut self, atoms: &[Pure]) -> Result<(), OutOfMemory> {
        for atom in atoms {
            if let Pure::Eq(t, u) = *atom {
                self.join(t, u)?;
            }
        }
        Ok(())
    }

    /// Whether two terms are of one class.
    pub fn are_equal(&self, t: Term, u: Term) -> bool {
        self.of(t) == self.of(u)
    }
}
