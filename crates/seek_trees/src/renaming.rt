// Judgements up to the names of their variables.
use cyc_basics::memory::OutOfMemory;
use heap_formula::{Heap, Judgement, Subst, Term, apply};
use seek_engine::terms_of;
use std::alloc::Global;

/// The universal variables of a judgement in the order in which they first stand there. The variable at place i is `$i`
/// in the renamed judgement.
#[derive(Drop)]
pub struct Renaming {
    pub names: Vec<u16>,
}

impl Renaming {
    fn add(&mut self, terms: &[Term]) -> Result<(), OutOfMemory> {
        for term in terms {
            if let Term::Univ(name) = *term {
                if !self.names.contains(&name) {
                    self.names.push(name)?;
                }
            }
        }
        Ok(())
    }

    fn add_heap(&mut self, alloc: Global, heap: &Heap) -> Result<(), OutOfMemory> {
        let terms = terms_of(alloc, heap)?;
        self.add(&terms)
    }

    fn add_heaps(&mut self, alloc: Global, heaps: &[Heap]) -> Result<(), OutOfMemory> {
        for heap in heaps {
            self.add_heap(alloc, heap)?;
        }
        Ok(())
    }

    /// The variables of an entailment.
    pub fn of(alloc: Global, judgement: &Judgement) -> Result<Renaming, OutOfMemory> {
        let mut made = Renaming {
            names: Vec::new(alloc),
        };
        match judgement {
            Judgement::Entail(left, right) => {
                made.add_heap(alloc, left)?;
                made.add_heaps(alloc, right.heaps())?;
            }
            Judgement::Term(_, state) => made.add_heap(alloc, state)?,
        }
        Ok(made)
    }

    /// The judgement with the new names.
    pub fn renamed(&self, alloc: Global, judgement: &Judgement) -> Result<Judgement, OutOfMemory> {
        let mut pairs = Vec::new(alloc);
        let mut next: u16 = 0;
        for name in &self.names {
            pairs.push((*name, Term::Univ(next)))?;
            next = next.saturating_add(1);
        }
        apply(alloc, judgement, &Subst::from_vec(pairs))
    }

    /// The terms that stand for the new names.
    pub fn values(&self, alloc: Global) -> Result<Vec<(u16, Term)>, OutOfMemory> {
        let mut pairs = Vec::new(alloc);
        let mut next: u16 = 0;
        for name in &self.names {
            pairs.push((next, Term::Univ(*name)))?;
            next = next.saturating_add(1);
        }
        Ok(pairs)
    }
}
