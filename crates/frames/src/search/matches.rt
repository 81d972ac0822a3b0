// Atoms that are asked for, matched with those that are there.
use crate::search::leaves::{Leaf, opened_case, replaced};
use cyc_basics::memory::OutOfMemory;
use heap_formula::{Args, Heap, Pure, Spatial, Term, exists_in_heap};
use pred_defs::{Defs, Fresh};
use refute_unfoldings::Unfolding;
use seek_shapes::{address, arguments, is_alike};
use std::alloc::{AllocError, Global};

/// Atoms that are asked for and have no partner yet, atoms of a leaf without a partner, the values of the existential
/// variables so far, how many of them were given one, and how many atoms that are asked for were replaced by cases.
#[derive(Drop)]
pub struct Match {
    pub open: Vec<Spatial>,
    pub left: Vec<Spatial>,
    pub values: Vec<Option<Term>>,
    pub given: u32,
    pub folds: u32,
}

impl Clone for Match {
    fn clone(&self) -> Result<Match, AllocError> {
        let open = self.open.clone()?;
        let left = self.left.clone()?;
        let values = self.values.clone()?;
        Ok(Match {
            open,
            left,
            values,
            given: self.given,
            folds: self.folds,
        })
    }
}

impl Match {
    /// Nothing is matched; the equations that are asked for give values to existential variables.
    pub fn first(alloc: Global, leaf: &Leaf, wanted: &Heap) -> Result<Match, OutOfMemory> {
        let count = exists_in_heap(wanted) as usize;
        let mut first = Match {
            open: Vec::from_slice(alloc, wanted.spatial())?,
            left: leaf.atoms.clone()?,
            values: vec![in alloc; None; count]?,
            given: 0,
            folds: 0,
        };
        for atom in wanted.pure() {
            first.asks(&leaf.known, *atom);
        }
        Ok(first)
    }

    /// What a term that is asked for comes to.
    pub fn value(&self, term: Term) -> Term {
        let Term::Exist(number) = term else {
            return term;
        };
        match self.values.get(number as usize) {
            Some(Some(value)) => *value,
            _ => term,
        }
    }

    /// Whether a term that is asked for may be this one; it is from now on.
    fn fits(&mut self, known: &Unfolding, wanted: Term, given: Term) -> bool {
        match self.value(wanted) {
            Term::Exist(number) => {
                if let Some(value) = self.values.get_mut(number as usize) {
                    *value = Some(given);
                }
                self.given = self.given.saturating_add(1);
                true
            }
            term => known.class(term) == known.class(given),
        }
    }

    fn fit_all(&mut self, known: &Unfolding, wanted: &[Term], given: &[Term]) -> bool {
        for (term, other) in wanted.iter().zip(given) {
            if !self.fits(known, *term, *other) {
                return false;
            }
        }
        wanted.len() == given.len()
    }

    /// Whether a pure atom that is asked for may hold.
    fn asks(&mut self, known: &Unfolding, atom: Pure) -> bool {
        match atom {
            Pure::Eq(t, u) => match (self.value(t), self.value(u)) {
                (Term::Exist(left), Term::Exist(right)) => left == right,
                (left, Term::Exist(number)) => self.fits(known, Term::Exist(number), left),
                (left, right) => self.fits(known, left, right),
            },
            Pure::Neq(t, u) => match (self.value(t), self.value(u)) {
                (Term::Exist(_), _) | (_, Term::Exist(_)) => true,
                (left, right) => known.differ(left, right),
            },
        }
    }

    fn ask_all(&mut self, known: &Unfolding, atoms: &[Pure]) -> bool {
        for atom in atoms {
            if !self.asks(known, *atom) {
                return false;
            }
        }
        true
    }

    fn are_partners(&mut self, known: &Unfolding, wanted: &Spatial, given: &Spatial) -> bool {
        if !is_alike(wanted, given) {
            return false;
        }
        if let (Some(term), Some(other)) = (address(wanted), address(given)) {
            if !self.fits(known, term, other) {
                return false;
            }
        }
        self.fit_all(known, arguments(wanted), arguments(given))
    }

    /// With two atoms as partners, if they may be.
    pub fn joined(
        &self,
        alloc: Global,
        known: &Unfolding,
        open: usize,
        left: usize,
    ) -> Result<Option<Match>, OutOfMemory> {
        let (Some(wanted), Some(given)) = (self.open.get(open), self.left.get(left)) else {
            return Ok(None);
        };
        let mut next = self.clone()?;
        if !next.are_partners(known, wanted, given) {
            return Ok(None);
        }
        next.open = replaced(alloc, &self.open, open, &[])?;
        next.left = replaced(alloc, &self.left, left, &[])?;
        Ok(Some(next))
    }

    /// The arguments with the values of existential variables in their place.
    fn settled_args(&self, args: &Args) -> Args {
        let mut terms = [Term::Nil; 8];
        let count = args.len();
        for (place, term) in args.as_slice().iter().enumerate() {
            terms[place] = self.value(*term);
        }
        Args::from_slice(&terms[..count])
    }

    /// Further existential variables without a value, up to so many.
    fn reach(&mut self, count: u32) -> Result<(), OutOfMemory> {
        for _ in self.values.len()..count as usize {
            self.values.push(None)?;
        }
        Ok(())
    }

    /// With a case in place of an atom that is asked for, if that may be.
    pub fn folded(
        &self,
        alloc: Global,
        defs: &Defs,
        known: &Unfolding,
        open: usize,
        case: usize,
    ) -> Result<Option<Match>, OutOfMemory> {
        let Some(Spatial::Pred(predicate, args)) = self.open.get(open) else {
            return Ok(None);
        };
        let args = self.settled_args(args);
        let fresh = Fresh::Exist(self.values.len().min(65_535) as u16);
        let Some(body) = opened_case(alloc, defs, *predicate, case, &args, fresh)? else {
            return Ok(None);
        };
        let mut next = self.clone()?;
        next.reach(exists_in_heap(&body))?;
        if !next.ask_all(known, body.pure()) {
            return Ok(None);
        }
        next.open = replaced(alloc, &self.open, open, body.spatial())?;
        next.folds = self.folds.saturating_add(1);
        Ok(Some(next))
    }
}
