// Maps of atoms into atoms under one substitution.
use cyc_basics::memory::OutOfMemory;
use heap_formula::{Pure, Spatial, Term};
use rule_table::equated;
use seek_shapes::{address, arguments, is_alike};
use std::alloc::Global;

/// The greatest number of maps that are kept.
const MOST_MATCHINGS: usize = 64;

/// How atoms are mapped: universal variables below `fixed_below` stay, as does all that is no universal variable; terms
/// are compared up to equations; and so many predicate atoms may stay without a place.
#[derive(Clone, Copy)]
pub struct Matcher<'a> {
    pub alloc: Global,
    pub fixed_below: u16,
    pub equations: &'a [Pure],
    pub may_skip: u32,
}

/// A map: the place of each atom, and the terms for universal variables.
#[derive(Drop)]
pub struct Matching {
    pub places: Vec<Option<u32>>,
    pub pairs: Vec<(u16, Term)>,
    pub skipped: u32,
}

/// The term for a variable.
pub fn value_of(pairs: &[(u16, Term)], variable: u16) -> Option<Term> {
    for (from, to) in pairs {
        if *from == variable {
            return Some(*to);
        }
    }
    None
}

impl Matching {
    /// Adds to a list the map with one more atom, at a place or without one, and these terms.
    fn push_with(
        &self,
        found: &mut Vec<Matching>,
        place: Option<u32>,
        pairs: Vec<(u16, Term)>,
    ) -> Result<(), OutOfMemory> {
        let mut longer = Matching {
            places: self.places.clone()?,
            pairs,
            skipped: self.skipped.saturating_add(u32::from(place.is_none())),
        };
        longer.places.push(place)?;
        found.push(longer)?;
        Ok(())
    }
}

impl Matcher<'_> {
    /// Whether a term stays as it is.
    pub fn is_fixed(&self, term: Term) -> bool {
        match term {
            Term::Nil | Term::Exist(_) => true,
            Term::Univ(n) => n < self.fixed_below,
        }
    }

    fn match_term(
        &self,
        pairs: &mut Vec<(u16, Term)>,
        from: Term,
        to: Term,
    ) -> Result<bool, OutOfMemory> {
        let known = match from {
            Term::Univ(n) if n >= self.fixed_below => match value_of(pairs, n) {
                Some(known) => known,
                None => {
                    pairs.push((n, to))?;
                    return Ok(true);
                }
            },
            _ => from,
        };
        Ok(equated(self.equations, known, to))
    }

    fn match_terms(
        &self,
        pairs: &mut Vec<(u16, Term)>,
        from: &[Term],
        to: &[Term],
    ) -> Result<bool, OutOfMemory> {
        for (place, t) in from.iter().enumerate() {
            let Some(u) = to.get(place) else {
                return Ok(false);
            };
            match self.match_term(pairs, *t, *u) {
                Ok(true) => {}
                other => return other,
            }
        }
        Ok(from.len() == to.len())
    }

    /// Adds the terms that send one atom to another of its kind, and says whether there are such.
    fn add_atom(
        &self,
        pairs: &mut Vec<(u16, Term)>,
        from: &Spatial,
        to: &Spatial,
    ) -> Result<bool, OutOfMemory> {
        if let (Some(t), Some(u)) = (address(from), address(to)) {
            match self.match_term(pairs, t, u) {
                Ok(true) => {}
                other => return other,
            }
        }
        self.match_terms(pairs, arguments(from), arguments(to))
    }

    /// These terms with those that send one atom to the other, if there are such.
    pub fn match_atom(
        &self,
        pairs: &[(u16, Term)],
        from: &Spatial,
        to: &Spatial,
    ) -> Result<Option<Vec<(u16, Term)>>, OutOfMemory> {
        if !is_alike(from, to) {
            return Ok(None);
        }
        let mut longer = Vec::from_slice(self.alloc, pairs)?;
        if self.add_atom(&mut longer, from, to)? {
            return Ok(Some(longer));
        }
        Ok(None)
    }

    /// The map with one more atom at this place, if the terms go together.
    fn push_placed(
        &self,
        found: &mut Vec<Matching>,
        shorter: &Matching,
        atom: &Spatial,
        place: u32,
        target: &Spatial,
    ) -> Result<(), OutOfMemory> {
        match self.match_atom(&shorter.pairs, atom, target)? {
            Some(pairs) => shorter.push_with(found, Some(place), pairs),
            None => Ok(()),
        }
    }

    /// The map with one more atom, at each place in turn, and without a place if that may be.
    fn push_longer(
        &self,
        found: &mut Vec<Matching>,
        shorter: &Matching,
        atom: &Spatial,
        targets: &[Spatial],
    ) -> Result<(), OutOfMemory> {
        let mut place: u32 = 0;
        for target in targets {
            if !shorter.places.contains(&Some(place)) {
                self.push_placed(found, shorter, atom, place, target)?;
            }
            place = place.saturating_add(1);
        }
        if shorter.skipped >= self.may_skip || matches!(atom, Spatial::Cell(_, _)) {
            return Ok(());
        }
        let pairs = shorter.pairs.clone()?;
        shorter.push_with(found, None, pairs)
    }

    /// The maps with one more atom, no more than 64.
    fn longer(
        &self,
        found: &[Matching],
        atom: &Spatial,
        targets: &[Spatial],
    ) -> Result<Vec<Matching>, OutOfMemory> {
        let mut longer = Vec::new(self.alloc);
        for shorter in found {
            self.push_longer(&mut longer, shorter, atom, targets)?;
        }
        longer.truncate(MOST_MATCHINGS);
        Ok(longer)
    }

    /// The maps of the first atoms into the others, each to a place of its own, where no more than 64 are kept at a
    /// time.
    pub fn matchings(
        &self,
        atoms: &[Spatial],
        targets: &[Spatial],
    ) -> Result<Vec<Matching>, OutOfMemory> {
        let empty = Matching {
            places: Vec::new(self.alloc),
            pairs: Vec::new(self.alloc),
            skipped: 0,
        };
        let mut found = vec![in self.alloc; empty]?;
        for atom in atoms {
            found = self.longer(&found, atom, targets)?;
        }
        Ok(found)
    }
}
