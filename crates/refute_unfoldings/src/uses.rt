// Predicate atoms, and the cases that they unfold to.
use cyc_basics::memory::OutOfMemory;
use heap_formula::{Args, Heap, exists_in_heap};
use pred_defs::{Defs, Fresh, case_body};
use std::alloc::Global;

/// The first number that no variable has.
const MOST_VARIABLES: u32 = 65_536;

/// A predicate atom: the predicate and its arguments, which are nil or universal variables.
#[derive(Clone, Drop)]
pub struct PredicateUse {
    pub predicate: u16,
    pub args: Args,
}

/// A predicate atom of an unfolding, and its number among those that came into it.
#[derive(Clone, Drop)]
pub struct OpenAtom {
    pub atom: PredicateUse,
    pub(crate) number: usize,
}

/// By which case an atom was replaced, which variables are the case's locals, and which atoms the case brought.
#[derive(Clone, Copy)]
pub(crate) struct Replaced {
    pub case: u32,
    pub first_local: u16,
    pub end_of_locals: u16,
    pub first_atom: usize,
    pub end_of_atoms: usize,
}

impl PredicateUse {
    /// A case of the predicate with these arguments, and variables from a number on as its locals; none where there is
    /// no such case, or where numbers run out.
    pub(crate) fn body(
        &self,
        alloc: Global,
        defs: &Defs,
        case: u32,
        first: u16,
    ) -> Result<Option<Heap>, OutOfMemory> {
        let Some(whole) = defs.cases(self.predicate).get(case as usize) else {
            return Ok(None);
        };
        if u32::from(first) + exists_in_heap(whole) > MOST_VARIABLES {
            return Ok(None);
        }
        let fresh = Fresh::Univ(first);
        let body = case_body(alloc, defs, self.predicate, case, &self.args, fresh)?;
        Ok(Some(body))
    }
}
