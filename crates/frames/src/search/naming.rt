// What is left of a leaf, in terms that a frame can have.
use crate::search::leaves::Leaf;
use crate::search::matches::Match;
use cyc_basics::memory::OutOfMemory;
use heap_formula::{Args, Heap, Pure, Spatial, Term};
use seek_shapes::{args_of, heap_of};
use std::alloc::Global;

/// The terms that a frame can have: nil, the antecedent's variables but for the hidden ones, and existential variables.
/// Those of what is asked for come first, and stand for what they were matched with.
#[derive(Drop)]
pub struct Naming<'a> {
    leaf: &'a Leaf,
    matched: &'a Match,
    hidden: &'a [bool],
    asked: usize,
    fresh: Vec<Term>,
}

impl<'a> Naming<'a> {
    /// The terms for a leaf and what was matched in it, where so many existential variables were asked for.
    pub fn new(
        alloc: Global,
        leaf: &'a Leaf,
        matched: &'a Match,
        hidden: &'a [bool],
        asked: usize,
    ) -> Naming<'a> {
        Naming {
            leaf,
            matched,
            hidden,
            asked,
            fresh: Vec::new(alloc),
        }
    }
}

impl Naming<'_> {
    fn is_seen(&self, term: Term) -> bool {
        match term {
            Term::Nil => true,
            Term::Univ(number) => match self.hidden.get(number as usize) {
                Some(is_hidden) => !*is_hidden,
                None => false,
            },
            Term::Exist(_) => false,
        }
    }

    fn are_equal(&self, t: Term, u: Term) -> bool {
        self.leaf.known.class(t) == self.leaf.known.class(u)
    }

    /// Nil, or a variable that is not hidden, if one equals the term.
    fn seen(&self, term: Term) -> Option<Term> {
        if self.is_seen(term) {
            return Some(term);
        }
        if self.are_equal(term, Term::Nil) {
            return Some(Term::Nil);
        }
        for (number, is_hidden) in self.hidden.iter().enumerate() {
            let other = Term::Univ(number.min(65_535) as u16);
            if !*is_hidden && self.are_equal(other, term) {
                return Some(other);
            }
        }
        None
    }

    /// The existential variable of what is asked for that was matched with a term.
    fn matched_with(&self, term: Term) -> Option<Term> {
        for (number, value) in self.matched.values.iter().enumerate() {
            if let Some(value) = value {
                if number < self.asked && self.are_equal(*value, term) {
                    return Some(Term::Exist(number.min(65_535) as u16));
                }
            }
        }
        None
    }

    /// The place of a new existential variable.
    fn place_of(&mut self, term: Term) -> Result<usize, OutOfMemory> {
        for (place, other) in self.fresh.iter().enumerate() {
            if self.are_equal(*other, term) {
                return Ok(place);
            }
        }
        let place = self.fresh.len();
        self.fresh.push(term)?;
        Ok(place)
    }

    fn existential(&mut self, term: Term) -> Result<Term, OutOfMemory> {
        if let Term::Univ(number) = term {
            if (number as usize) < self.hidden.len() {
                return Ok(term);
            }
        }
        let place = self.place_of(term)?;
        let number = self.asked.saturating_add(place);
        Ok(Term::Exist(number.min(65_535) as u16))
    }

    /// The term for one of the leaf.
    pub fn name(&mut self, term: Term) -> Result<Term, OutOfMemory> {
        if let Term::Exist(_) = term {
            return Ok(term);
        }
        if let Some(seen) = self.seen(term) {
            return Ok(seen);
        }
        match self.matched_with(term) {
            Some(found) => Ok(found),
            None => self.existential(term),
        }
    }

    fn args(&mut self, alloc: Global, args: &Args) -> Result<Args, OutOfMemory> {
        let mut terms = Vec::new(alloc);
        for term in args.as_slice() {
            terms.push(self.name(*term)?)?;
        }
        Ok(args_of(&terms))
    }

    fn atom(&mut self, alloc: Global, atom: &Spatial) -> Result<Spatial, OutOfMemory> {
        match atom {
            Spatial::Cell(address, fields) => {
                let address = self.name(*address)?;
                Ok(Spatial::Cell(address, self.args(alloc, fields)?))
            }
            Spatial::Pred(predicate, args) => {
                Ok(Spatial::Pred(*predicate, self.args(alloc, args)?))
            }
        }
    }

    /// The atoms in these terms, as a frame.
    pub fn frame(
        &mut self,
        alloc: Global,
        pure: Vec<Pure>,
        atoms: &[Spatial],
    ) -> Result<Option<Heap>, OutOfMemory> {
        let mut spatial = Vec::new(alloc);
        for atom in atoms {
            spatial.push(self.atom(alloc, atom)?)?;
        }
        Ok(heap_of(pure, spatial))
    }

    /// What the cases said of terms that are not hidden.
    pub fn said(&self, alloc: Global) -> Result<Vec<Pure>, OutOfMemory> {
        let mut atoms = Vec::new(alloc);
        for atom in &self.leaf.said {
            let said = match *atom {
                Pure::Eq(t, u) => self.pair(t, u, false),
                Pure::Neq(t, u) => self.pair(t, u, true),
            };
            if let Some(atom) = said {
                atoms.push(atom)?;
            }
        }
        Ok(atoms)
    }

    fn pair(&self, t: Term, u: Term, differ: bool) -> Option<Pure> {
        if !self.is_seen(t) && !self.is_seen(u) {
            return None;
        }
        let (left, right) = (self.seen(t)?, self.seen(u)?);
        if left == right {
            None
        } else if differ {
            Some(Pure::Neq(left, right))
        } else {
            Some(Pure::Eq(left, right))
        }
    }
}
