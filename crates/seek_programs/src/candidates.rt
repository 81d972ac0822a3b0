// Candidates for a more general state.
use crate::commons::{Commons, is_fixed};
use crate::folds::part_of;
use crate::remainders::General;
use crate::state_folds::StateFold;
use cyc_basics::memory::OutOfMemory;
use heap_formula::{Heap, Pure, Spatial, Term};
use rule_table::{equated, follows, has_pure};

/// The place of the cell with this address, up to equations.
fn cell_at(pure: &[Pure], spatial: &[Spatial], term: Term) -> Option<usize> {
    for (i, atom) in spatial.iter().enumerate() {
        if let Spatial::Cell(address, _) = atom {
            if equated(pure, *address, term) {
                return Some(i);
            }
        }
    }
    None
}

/// Whether a disequation says that the terms differ, up to equations.
fn are_told_apart(pure: &[Pure], t: Term, u: Term) -> bool {
    for atom in pure {
        if let Pure::Neq(p, q) = *atom {
            let is_straight = equated(pure, p, t) && equated(pure, q, u);
            let is_crossed = equated(pure, p, u) && equated(pure, q, t);
            if is_straight || is_crossed {
                return true;
            }
        }
    }
    false
}

/// Whether the terms differ by a disequation or by cells, up to equations.
fn differ(heap: &Heap, t: Term, u: Term) -> bool {
    let (pure, spatial) = (heap.pure(), heap.spatial());
    if are_told_apart(pure, t, u) {
        return true;
    }
    match (cell_at(pure, spatial, t), cell_at(pure, spatial, u)) {
        (Some(i), Some(k)) => i != k,
        (Some(_), None) => equated(pure, u, Term::Nil),
        (None, Some(_)) => equated(pure, t, Term::Nil),
        (None, None) => false,
    }
}

fn has_kept(first: &Heap, weakened: &[u32], atom: Pure) -> bool {
    for (k, other) in first.pure().iter().enumerate() {
        if !weakened.contains(&(k as u32)) && has_pure(&[*other], atom) {
            return true;
        }
    }
    false
}

/// Whether both states have the disequation of two fixed terms, the first state by these of its atoms.
fn is_common(commons: &Commons<'_>, seen: &Heap, t: Term, u: Term) -> bool {
    is_fixed(t, commons.variables)
        && is_fixed(u, commons.variables)
        && differ(seen, t, u)
        && differ(commons.second, t, u)
}

/// Whether the fold's atom stands in the first state already.
fn stands(commons: &Commons<'_>, fold: &StateFold) -> bool {
    match fold.of_first.as_slice() {
        [i] => fold.first == fold.second && commons.first.spatial_at(*i) == Some(&fold.first),
        _ => false,
    }
}

/// How many of the places come before one.
fn count_before(places: &[u32], place: u32) -> u32 {
    let mut count: u32 = 0;
    for other in places {
        if *other < place {
            count = count.saturating_add(1);
        }
    }
    count
}

/// Lowers the places by how many are cut away before each.
fn lower(places: &mut [u32], cut: &[u32]) {
    for place in places {
        *place = place.saturating_sub(count_before(cut, *place));
    }
}

impl General {
    /// Leaves out the first state's pure atoms that the second has not, the last ones first.
    fn weaken(&mut self, commons: &Commons<'_>) -> Result<(), OutOfMemory> {
        for (k, atom) in commons.first.pure().iter().enumerate() {
            let stays = follows(commons.second.pure(), *atom)
                || matches!(*atom, Pure::Neq(t, u) if differ(commons.second, t, u));
            if !stays {
                self.weakened.push(k as u32)?;
            }
        }
        self.weakened.reverse();
        Ok(())
    }

    /// Brings the disequations of fixed terms that both states have, the first one by these of its atoms, and that do
    /// not stay as written.
    fn push_disequations(&mut self, commons: &Commons<'_>, seen: &Heap) -> Result<(), OutOfMemory> {
        let terms = commons.terms.as_slice();
        for (i, t) in terms.iter().enumerate() {
            for (k, u) in terms.iter().enumerate() {
                let atom = Pure::Neq(*t, *u);
                let is_apart = k < i && is_common(commons, seen, *t, *u);
                if is_apart && !has_kept(commons.first, &self.weakened, atom) {
                    self.pure.push(atom)?;
                }
            }
        }
        Ok(())
    }

    /// Takes a fold into the change.
    fn take_fold(&mut self, commons: &Commons<'_>, fold: &StateFold) -> Result<(), OutOfMemory> {
        let of_second = fold.of_second.as_slice();
        self.used.extend_from_slice(of_second)?;
        self.pay(1);
        if stands(commons, fold) {
            return Ok(());
        }
        self.cut.extend_from_slice(fold.of_first.as_slice())?;
        let atom = self.joined(commons, &fold.first, &fold.second)?;
        self.by.push(atom)?;
        let others = of_second.len().saturating_sub(1);
        self.pay(others.min(64) as u32 * 2);
        Ok(())
    }

    /// Takes the folds into the change, and what they leave. Once it is known which atoms are cut away, what is left to
    /// say is the order of the places, and the pure atoms.
    pub fn fill(&mut self, commons: &Commons<'_>, folds: &[&StateFold]) -> Result<(), OutOfMemory> {
        for fold in folds {
            self.take_fold(commons, fold)?;
        }
        self.settle(commons, folds)?;
        self.pay(self.lost(commons).min(64) as u32 * 2);
        self.cut.sort_unstable();
        self.dropped.sort_unstable();
        self.dropped.reverse();
        lower(&mut self.dropped, &self.cut);
        self.weaken(commons)?;
        let seen = part_of(commons.alloc, commons.first, &self.cut)?;
        let pushed = self.push_disequations(commons, &seen);
        drop(seen);
        pushed
    }
}
