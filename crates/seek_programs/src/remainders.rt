// Atoms of a state beside its folds: kept, generalised, or dropped.
use crate::commons::Commons;
use crate::forced::is_predicate;
use crate::state_folds::StateFold;
use cyc_basics::memory::OutOfMemory;
use heap_formula::{Args, Pure, Spatial, Term};
use seek_engine::{args_of, arguments, is_alike};
use std::alloc::Global;

/// A change of the state at a head: atoms that are cut away, in ascending order, what comes in their place, and the
/// pure atoms, and then spatial atoms after the Cut, that are left out, the last ones first; a score, of which a low
/// one is good; and, while it is made, the places of the second state that are accounted for, and the pairs of terms
/// that became existentials.
#[derive(Drop)]
pub struct General {
    pub cut: Vec<u32>,
    pub pure: Vec<Pure>,
    pub by: Vec<Spatial>,
    pub weakened: Vec<u32>,
    pub dropped: Vec<u32>,
    pub score: u32,
    pub used: Vec<u32>,
    unknown: Vec<(Term, Term)>,
}

/// Whether a fold takes the place of the first state.
fn is_folded(folds: &[&StateFold], place: u32) -> bool {
    for fold in folds {
        if fold.of_first.as_slice().contains(&place) {
            return true;
        }
    }
    false
}

fn are_like(commons: &Commons<'_>, ts: &[Term], us: &[Term]) -> bool {
    for (i, t) in ts.iter().enumerate() {
        if let Some(u) = us.get(i) {
            if commons.meeting(*t, *u).is_none() {
                return false;
            }
        }
    }
    ts.len() == us.len()
}

impl General {
    /// The change of nothing.
    pub fn none(alloc: Global) -> General {
        General {
            cut: Vec::new(alloc),
            pure: Vec::new(alloc),
            by: Vec::new(alloc),
            weakened: Vec::new(alloc),
            dropped: Vec::new(alloc),
            score: 0,
            used: Vec::new(alloc),
            unknown: Vec::new(alloc),
        }
    }

    /// Whether nothing comes in and nothing is left out.
    fn is_idle(&self) -> bool {
        self.by.is_empty()
            && self.dropped.is_empty()
            && self.weakened.is_empty()
            && self.pure.is_empty()
    }

    /// Whether something changes, and nothing is left out or over where that may not be.
    pub fn is_useful(&self, commons: &Commons<'_>) -> bool {
        let is_all = self.dropped.is_empty() && self.lost(commons) == 0;
        !self.is_idle() && (is_all || !commons.is_whole)
    }

    /// How many atoms of the second state are not accounted for.
    pub fn lost(&self, commons: &Commons<'_>) -> usize {
        commons
            .second
            .spatial()
            .len()
            .saturating_sub(self.used.len())
    }

    /// Adds to the score.
    pub fn pay(&mut self, score: u32) {
        self.score = self.score.saturating_add(score);
    }

    /// One term for two: the common one, or the existential of the pair.
    fn joined_term(
        &mut self,
        commons: &Commons<'_>,
        t: Term,
        u: Term,
    ) -> Result<Term, OutOfMemory> {
        if let Some(term) = commons.meeting(t, u) {
            return Ok(term);
        }
        let mut number: u16 = 0;
        for other in self.unknown.iter() {
            if *other == (t, u) {
                return Ok(Term::Exist(number));
            }
            number = number.saturating_add(1);
        }
        self.unknown.push((t, u))?;
        Ok(Term::Exist(number))
    }

    fn joined_args(
        &mut self,
        commons: &Commons<'_>,
        ts: &[Term],
        us: &[Term],
    ) -> Result<Args, OutOfMemory> {
        let mut terms = [Term::Nil; 8];
        for (i, slot) in terms.iter_mut().enumerate() {
            if let (Some(t), Some(u)) = (ts.get(i), us.get(i)) {
                *slot = self.joined_term(commons, *t, *u)?;
            }
        }
        Ok(args_of(&terms[..ts.len().min(8)]))
    }

    /// One atom for two of one kind.
    pub fn joined(
        &mut self,
        commons: &Commons<'_>,
        x: &Spatial,
        y: &Spatial,
    ) -> Result<Spatial, OutOfMemory> {
        match (x, y) {
            (Spatial::Cell(t, ts), Spatial::Cell(u, us)) => {
                let address = self.joined_term(commons, *t, *u)?;
                let fields = self.joined_args(commons, ts.as_slice(), us.as_slice())?;
                Ok(Spatial::Cell(address, fields))
            }
            (Spatial::Pred(p, ts), Spatial::Pred(_, us)) => {
                let args = self.joined_args(commons, ts.as_slice(), us.as_slice())?;
                Ok(Spatial::Pred(*p, args))
            }
            _ => Ok(*x),
        }
    }

    fn some_is_like(&self, commons: &Commons<'_>, ts: &[Term], us: &[Term]) -> bool {
        for (i, t) in ts.iter().enumerate() {
            if let Some(u) = us.get(i) {
                if commons.meeting(*t, *u).is_some() || self.unknown.contains(&(*t, *u)) {
                    return true;
                }
            }
        }
        false
    }

    /// Whether the second atom may be what became of the first: a cell of one address, or a predicate with a term at
    /// one place; or if `is_whole`, whether both atoms say the same of common terms.
    fn fits(&self, commons: &Commons<'_>, x: &Spatial, y: &Spatial, is_whole: bool) -> bool {
        if !is_alike(x, y) {
            return false;
        }
        let (ts, us) = (arguments(x), arguments(y));
        match (x, y) {
            (Spatial::Cell(t, _), Spatial::Cell(u, _)) => {
                commons.meeting(*t, *u).is_some() && (!is_whole || are_like(commons, ts, us))
            }
            _ if is_whole => are_like(commons, ts, us),
            _ => self.some_is_like(commons, ts, us),
        }
    }

    fn find(&self, commons: &Commons<'_>, x: &Spatial, is_whole: bool) -> Option<(u32, Spatial)> {
        for (k, y) in commons.second.spatial().iter().enumerate() {
            let k = k as u32;
            if !self.used.contains(&k) && self.fits(commons, x, y, is_whole) {
                return Some((k, *y));
            }
        }
        None
    }

    /// Puts what the atom and one of the second state have in common in the atom's place, if there is one: the same up
    /// to equations if `is_whole`, and then nothing changes where both are written alike.
    fn join(
        &mut self,
        commons: &Commons<'_>,
        i: u32,
        x: &Spatial,
        is_whole: bool,
    ) -> Result<bool, OutOfMemory> {
        let Some((k, y)) = self.find(commons, x, is_whole) else {
            return Ok(false);
        };
        self.used.push(k)?;
        let joined = self.joined(commons, x, &y)?;
        if !is_whole || joined != *x {
            self.cut.push(i)?;
            self.by.push(joined)?;
        }
        Ok(true)
    }

    /// Generalises the atoms at the places, either the cells or the predicates, to what both states have of each, or
    /// drops them.
    fn generalise(
        &mut self,
        commons: &Commons<'_>,
        places: &[u32],
        of_predicates: bool,
    ) -> Result<(), OutOfMemory> {
        for i in places {
            if let Some(x) = commons.first.spatial_at(*i) {
                if is_predicate(x) != of_predicates {
                    continue;
                }
                if self.join(commons, *i, x, false)? {
                    self.pay(1);
                } else {
                    self.dropped.push(*i)?;
                    self.pay(3);
                }
            }
        }
        Ok(())
    }

    /// What becomes of the first state's atoms that no fold takes; cells before predicates.
    pub fn settle(
        &mut self,
        commons: &Commons<'_>,
        folds: &[&StateFold],
    ) -> Result<(), OutOfMemory> {
        let mut left = Vec::new(commons.alloc);
        for (i, x) in commons.first.spatial().iter().enumerate() {
            let i = i as u32;
            if !is_folded(folds, i) && !self.join(commons, i, x, true)? {
                left.push(i)?;
            }
        }
        let mut ran = self.generalise(commons, &left, false);
        if ran.is_ok() {
            ran = self.generalise(commons, &left, true);
        }
        drop(left);
        ran
    }
}
