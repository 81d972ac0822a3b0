// The most general model of an unfolding.
use crate::unfolding::Unfolding;
use crate::uses::Replaced;
use cyc_basics::memory::OutOfMemory;
use general_models::derivations::CaseStep;
use goto_lang::Stack;
use heap_formula::{Args, Term};
use std::alloc::Global;

/// A cell of a model: its address, which is not 0, and its fields.
#[derive(Clone, Drop)]
pub struct Cell {
    pub address: u64,
    pub fields: Vec<u64>,
}

/// A stack and a heap. The cells stand at the addresses from 1 on, in this order; other values follow them. `bound` is
/// above all values, `names` has a variable for each value, `steps` is the derivation that the unfolding makes, and
/// `apart` the pairs of values that it asks to differ.
#[derive(Drop)]
pub struct Model {
    pub stack: Vec<u64>,
    pub cells: Vec<Cell>,
    pub bound: u64,
    pub names: Vec<Term>,
    pub steps: Vec<CaseStep>,
    apart: Vec<(u64, u64)>,
}

/// The two in ascending order.
pub fn ascending(a: u64, b: u64) -> (u64, u64) {
    (a.min(b), a.max(b))
}

impl Model {
    /// Whether a cell stands at the value.
    pub fn is_cell(&self, value: u64) -> bool {
        value > 0 && value <= self.cells.len() as u64
    }

    /// The cell at an address.
    pub fn cell(&self, address: u64) -> Option<&Cell> {
        if address > 0 {
            self.cells.get(address as usize - 1)
        } else {
            None
        }
    }

    /// A variable that has a value.
    pub fn name(&self, value: u64) -> Term {
        match self.names.get(value as usize) {
            Some(name) => *name,
            None => Term::Nil,
        }
    }

    /// Whether the two values are one in another model of the same unfolding.
    pub fn is_mergeable(&self, a: u64, b: u64) -> bool {
        let (a, b) = ascending(a, b);
        let are_placed = self.is_cell(b) && (a == 0 || self.is_cell(a));
        a != b && b < self.bound && !are_placed && !self.apart.contains(&(a, b))
    }
}

/// The values of the classes, by the number of the least variable of each.
#[derive(Drop)]
struct Numbering<'a> {
    unfolding: &'a Unfolding,
    values: Vec<Option<u64>>,
    names: Vec<Term>,
}

impl Numbering<'_> {
    fn value(&self, term: Term) -> u64 {
        match self.unfolding.class(term) {
            Term::Univ(n) => match self.values.get(n as usize) {
                Some(Some(value)) => *value,
                _ => 0,
            },
            Term::Nil | Term::Exist(_) => 0,
        }
    }

    /// Gives the class of a variable the next value, if it has none.
    fn number(&mut self, variable: u16) -> Result<(), OutOfMemory> {
        let Term::Univ(n) = self.unfolding.class(Term::Univ(variable)) else {
            return Ok(());
        };
        if let Some(value) = self.values.get_mut(n as usize) {
            if value.is_none() {
                *value = Some(self.names.len() as u64);
                self.names.push(Term::Univ(n))?;
            }
        }
        Ok(())
    }

    /// Gives the addresses their values.
    fn number_addresses(&mut self) -> Result<(), OutOfMemory> {
        for variable in 0..self.unfolding.variables() {
            if self.unfolding.cell_at(Term::Univ(variable)).is_some() {
                self.number(variable)?;
            }
        }
        Ok(())
    }

    fn number_all(&mut self) -> Result<(), OutOfMemory> {
        self.number_addresses()?;
        for variable in 0..self.unfolding.variables() {
            self.number(variable)?;
        }
        Ok(())
    }

    fn values_of(&self, alloc: Global, terms: &Args) -> Result<Vec<u64>, OutOfMemory> {
        let mut values = Vec::new(alloc);
        for term in terms.as_slice() {
            values.push(self.value(*term))?;
        }
        Ok(values)
    }

    fn cells(&self, alloc: Global) -> Result<Vec<Cell>, OutOfMemory> {
        let mut cells = Vec::new(alloc);
        for cell in self.unfolding.cells() {
            cells.push(Cell {
                address: self.value(cell.address),
                fields: self.values_of(alloc, &cell.fields)?,
            })?;
        }
        cells.sort_by_key(|cell| cell.address)?;
        Ok(cells)
    }

    fn stack(&self, alloc: Global, variables: u16) -> Result<Vec<u64>, OutOfMemory> {
        let mut stack = Vec::new(alloc);
        for variable in 0..variables {
            stack.push(self.value(Term::Univ(variable)))?;
        }
        Ok(stack)
    }

    fn apart(&self, alloc: Global) -> Result<Vec<(u64, u64)>, OutOfMemory> {
        let mut apart = Vec::new(alloc);
        for (t, u) in self.unfolding.apart() {
            apart.push(ascending(self.value(*t), self.value(*u)))?;
        }
        Ok(apart)
    }
}

/// Puts the numbers below an end on a stack, the first one topmost.
fn push_numbers(pending: &mut Vec<usize>, first: usize, end: usize) -> Result<(), OutOfMemory> {
    for number in (first..end).rev() {
        pending.push(number)?;
    }
    Ok(())
}

impl Numbering<'_> {
    /// The values of the locals that a case brought.
    fn locals(&self, alloc: Global, replaced: &Replaced) -> Result<Stack, OutOfMemory> {
        let mut values = Vec::new(alloc);
        for variable in replaced.first_local..replaced.end_of_locals {
            values.push(self.value(Term::Univ(variable)))?;
        }
        Ok(Stack::from_vec(values))
    }

    /// The cases that were taken, depth first, with the values of their locals.
    fn steps(&self, alloc: Global) -> Result<Vec<CaseStep>, OutOfMemory> {
        let atoms = self.unfolding.atoms();
        let mut steps = Vec::new(alloc);
        let mut pending = Vec::new(alloc);
        push_numbers(&mut pending, 0, self.unfolding.roots())?;
        for _ in 0..atoms.len() {
            let Some(number) = pending.pop() else {
                break;
            };
            if let Some(Some(replaced)) = atoms.get(number) {
                let locals = self.locals(alloc, replaced)?;
                let case = replaced.case;
                steps.push(CaseStep { case, locals })?;
                push_numbers(&mut pending, replaced.first_atom, replaced.end_of_atoms)?;
            }
        }
        Ok(steps)
    }
}

impl Unfolding {
    /// The model in which classes that nothing makes equal are different values, and its stack has so many entries.
    pub fn model(&self, alloc: Global, variables: u16) -> Result<Model, OutOfMemory> {
        let mut numbering = Numbering {
            unfolding: self,
            values: vec![in alloc; None; self.variables() as usize]?,
            names: vec![in alloc; Term::Nil]?,
        };
        numbering.number_all()?;
        Ok(Model {
            stack: numbering.stack(alloc, variables)?,
            cells: numbering.cells(alloc)?,
            bound: numbering.names.len() as u64,
            steps: numbering.steps(alloc)?,
            apart: numbering.apart(alloc)?,
            names: numbering.names,
        })
    }
}
