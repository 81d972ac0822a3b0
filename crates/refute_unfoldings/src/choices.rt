// Base pairs for several atoms at once.
use crate::base_pairs::BasePair;
use crate::derivations::Derivations;
use crate::unfolding::Unfolding;
use crate::uses::OpenAtom;
use cyc_basics::memory::OutOfMemory;
use std::alloc::{AllocError, Global};

/// Base pairs that were chosen for some atoms, each by its number, and what they say together.
#[derive(Drop)]
pub struct Choice {
    pub unfolding: Unfolding,
    pub numbers: Vec<Option<usize>>,
}

impl Clone for Choice {
    fn clone(&self) -> Result<Choice, AllocError> {
        let unfolding = self.unfolding.clone()?;
        let numbers = self.numbers.clone()?;
        Ok(Choice { unfolding, numbers })
    }
}

/// The consistent choices of a base pair for each atom, depth first: the atom of which the fewest fit goes first.
#[derive(Drop)]
pub struct Choices<'a> {
    alloc: Global,
    table: &'a Derivations<'a>,
    atoms: &'a [OpenAtom],
    open: Vec<Choice>,
    work: u32,
    most: u32,
}

impl<'a> Choices<'a> {
    /// All choices for these atoms beside what is known, as far as so much work goes.
    pub fn new(
        alloc: Global,
        table: &'a Derivations<'a>,
        atoms: &'a [OpenAtom],
        unfolding: Unfolding,
        most: u32,
    ) -> Result<Choices<'a>, OutOfMemory> {
        let numbers = vec![in alloc; None; atoms.len()]?;
        let first = Choice { unfolding, numbers };
        Ok(Choices {
            alloc,
            table,
            atoms,
            open: vec![in alloc; first]?,
            work: 0,
            most,
        })
    }

    /// How much work was done.
    pub fn work(&self) -> u32 {
        self.work
    }

    /// Counts work of another kind.
    pub fn spend(&mut self, work: u32) {
        self.work = self.work.saturating_add(work);
    }

    /// Whether all work was done: more may be left.
    pub fn is_over(&self) -> bool {
        self.work >= self.most
    }

    /// Chooses this pair for one atom in each choice.
    pub(crate) fn fix(&mut self, place: usize, number: usize) -> Result<(), OutOfMemory> {
        if let Some(first) = self.open.pop() {
            if let Some(choice) = self.with(&first, place, number)? {
                self.open.push(choice)?;
            }
        }
        Ok(())
    }

    /// The next choice, if there is one.
    pub fn next(&mut self) -> Result<Option<Choice>, OutOfMemory> {
        for _ in 0..self.most {
            if self.is_over() {
                return Ok(None);
            }
            let Some(choice) = self.open.pop() else {
                return Ok(None);
            };
            self.spend(1);
            match self.best(&choice)? {
                Some(mut found) => {
                    found.reverse();
                    self.open.append(&mut found)?;
                }
                None => return Ok(Some(choice)),
            }
        }
        Ok(None)
    }

    fn with(
        &self,
        choice: &Choice,
        place: usize,
        number: usize,
    ) -> Result<Option<Choice>, OutOfMemory> {
        let (Some(open), Some(pair)) = (self.atoms.get(place), self.pair(place, number)) else {
            return Ok(None);
        };
        let mut next = choice.clone()?;
        if !pair.apply(&mut next.unfolding, &open.atom.args)? {
            return Ok(None);
        }
        if let Some(entry) = next.numbers.get_mut(place) {
            *entry = Some(number);
        }
        Ok(Some(next))
    }

    fn pair(&self, place: usize, number: usize) -> Option<&'a BasePair> {
        self.table
            .pair(self.atoms.get(place)?.atom.predicate, number)
    }

    /// The choices that fit one more atom.
    fn fitting(&mut self, choice: &Choice, place: usize) -> Result<Vec<Choice>, OutOfMemory> {
        let mut found = Vec::new(self.alloc);
        let Some(open) = self.atoms.get(place) else {
            return Ok(found);
        };
        for number in 0..self.table.count(open.atom.predicate) {
            self.spend(1);
            if let Some(next) = self.with(choice, place, number)? {
                found.push(next)?;
            }
        }
        Ok(found)
    }

    /// The choices for the atom of which the fewest pairs fit; none if each atom has one.
    fn best(&mut self, choice: &Choice) -> Result<Option<Vec<Choice>>, OutOfMemory> {
        let mut best: Option<Vec<Choice>> = None;
        for place in 0..self.atoms.len() {
            if let Some(None) = choice.numbers.get(place) {
                let found = self.fitting(choice, place)?;
                let count = found.len();
                if is_better(&best, count) {
                    best = Some(found);
                }
                if count <= 1 {
                    break;
                }
            }
        }
        Ok(best)
    }
}

/// Whether fewer are found than in the best list so far.
pub fn is_better<T>(best: &Option<Vec<T>>, count: usize) -> bool {
    match best {
        Some(found) => count < found.len(),
        None => true,
    }
}
