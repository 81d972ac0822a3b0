// An antecedent, some of whose predicate atoms were replaced by cases.
ghost use Rattle.std.specs.Prelude.{◌≡◌};
ghost use Rattle.pred_defs.specs.Bodies.{first_fresh};

use cyc_basics::memory::OutOfMemory;
use heap_formula::{Args, Heap, Pure, Spatial, exists_in_heap};
use pred_defs::{Defs, Fresh, case_body};
use refute_unfoldings::Unfolding;
use std::alloc::Global;

/// The first number that no variable has.
const NO_VARIABLE: u32 = 65_536;

/// What an antecedent says where certain cases hold: what is known of its variables, its spatial atoms, the pure atoms
/// that the cases brought, and how many atoms were replaced.
#[derive(Drop)]
pub struct Leaf {
    pub known: Unfolding,
    pub atoms: Vec<Spatial>,
    pub said: Vec<Pure>,
    pub depth: u32,
}

/// The number of the first variable.
fn first_number(fresh: Fresh) -> u16
    ensures { result ≡ first_fresh fresh }
{
    match fresh {
        Fresh::Univ(first) | Fresh::Exist(first) => first,
    }
}

/// A case of a predicate with these arguments, and variables from a number on as its locals; none where there is no
/// such case, or where numbers run out.
pub fn opened_case(
    alloc: Global,
    defs: &Defs,
    predicate: u16,
    case: usize,
    args: &Args,
    fresh: Fresh,
) -> Result<Option<Heap>, OutOfMemory> {
    let Some(whole) = defs.cases(predicate).get(case) else {
        return Ok(None);
    };
    let first = first_number(fresh);
    if case > 65_535 || u32::from(first) + exists_in_heap(whole) > NO_VARIABLE {
        return Ok(None);
    }
    let body = case_body(alloc, defs, predicate, case as u32, args, fresh)?;
    Ok(Some(body))
}

/// The atoms with others in the place of one.
pub fn replaced(
    alloc: Global,
    atoms: &[Spatial],
    place: usize,
    others: &[Spatial],
) -> Result<Vec<Spatial>, OutOfMemory> {
    let mut made = Vec::new(alloc);
    for (number, atom) in atoms.iter().enumerate() {
        if number == place {
            made.extend_from_slice(others)?;
        } else {
            made.push(*atom)?;
        }
    }
    Ok(made)
}

impl Leaf {
    /// The antecedent itself, with so many variables; none where it is contradictory.
    pub fn first(
        alloc: Global,
        antecedent: &Heap,
        variables: u32,
    ) -> Result<Option<Leaf>, OutOfMemory> {
        let mut known = Unfolding::new(alloc, variables)?;
        let mut open = Vec::new(alloc);
        if !known.add(antecedent, &mut open)? {
            return Ok(None);
        }
        Ok(Some(Leaf {
            known,
            atoms: Vec::from_slice(alloc, antecedent.spatial())?,
            said: Vec::new(alloc),
            depth: 0,
        }))
    }

    /// With a heap in place of the atom at a place; none where that is contradictory.
    fn with(&self, alloc: Global, place: usize, body: &Heap) -> Result<Option<Leaf>, OutOfMemory> {
        let mut known = self.known.clone()?;
        let mut open = Vec::new(alloc);
        if !known.add(body, &mut open)? {
            return Ok(None);
        }
        let mut said = self.said.clone()?;
        said.extend_from_slice(body.pure())?;
        Ok(Some(Leaf {
            known,
            atoms: replaced(alloc, &self.atoms, place, body.spatial())?,
            said,
            depth: self.depth.saturating_add(1),
        }))
    }

    /// The leaves that a predicate atom's cases make of it.
    pub fn unfolded(
        &self,
        alloc: Global,
        defs: &Defs,
        place: usize,
    ) -> Result<Vec<Leaf>, OutOfMemory> {
        let mut leaves = Vec::new(alloc);
        let Some(Spatial::Pred(predicate, args)) = self.atoms.get(place) else {
            return Ok(leaves);
        };
        let fresh = Fresh::Univ(self.known.variables());
        for case in 0..defs.cases(*predicate).len() {
            if let Some(body) = opened_case(alloc, defs, *predicate, case, args, fresh)? {
                if let Some(leaf) = self.with(alloc, place, &body)? {
                    leaves.push(leaf)?;
                }
            }
        }
        Ok(leaves)
    }
}
