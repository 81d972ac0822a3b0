// Cases that an antecedent rules out.
use crate::classes::Classes;
use crate::heaps::{body_of, number_of};
use cyc_basics::memory::OutOfMemory;
use heap_formula::{Args, Heap, Pure, Spatial, Term};
use pred_defs::Defs;
use std::alloc::Global;

/// A predicate atom of which at most one case is left, and that one, which has no spatial atoms.
#[derive(Clone, Copy)]
pub struct Forced {
    pub place: u32,
    pub case: Option<u32>,
}

fn denies(classes: &Classes, atoms: &[Pure]) -> bool {
    for atom in atoms {
        if let Pure::Neq(t, u) = *atom {
            if classes.are_equal(t, u) {
                return true;
            }
        }
    }
    false
}

/// Whether one of the atoms is a cell at `nil` or at an address that was seen; else their addresses are seen.
fn meets(
    addresses: &mut Vec<Term>,
    classes: &Classes,
    atoms: &[Spatial],
) -> Result<bool, OutOfMemory> {
    for atom in atoms {
        if let Spatial::Cell(address, _) = atom {
            let address = classes.of(*address);
            if address == Term::Nil || addresses.contains(&address) {
                return Ok(true);
            }
            addresses.push(address)?;
        }
    }
    Ok(false)
}

/// Whether the two heaps together are contradictory as soon as their equations are used: a disequation of equal terms,
/// a cell at `nil`, or two cells at one address.
pub fn clashes(alloc: Global, heap: &Heap, body: &Heap) -> Result<bool, OutOfMemory> {
    let mut classes = Classes::new(alloc);
    classes.join_all(heap.pure())?;
    classes.join_all(body.pure())?;
    if denies(&classes, heap.pure()) || denies(&classes, body.pure()) {
        return Ok(true);
    }
    let mut addresses = Vec::new(alloc);
    if meets(&mut addresses, &classes, heap.spatial())? {
        return Ok(true);
    }
    meets(&mut addresses, &classes, body.spatial())
}

/// The cases of a predicate with these arguments that do not clash with the heap, in ascending order.
pub fn survivors(
    alloc: Global,
    heap: &Heap,
    cases: &[Heap],
    args: &Args,
) -> Result<Vec<u32>, OutOfMemory> {
    let mut left = Vec::new(alloc);
    for (number, case) in cases.iter().enumerate() {
        let body = body_of(alloc, case, args)?;
        if !clashes(alloc, heap, &body)? {
            left.push(number_of(number))?;
        }
    }
    Ok(left)
}

fn is_empty_case(cases: &[Heap], case: u32) -> bool {
    match cases.get(case as usize) {
        Some(case) => case.spatial().is_empty(),
        None => false,
    }
}

/// The first predicate atom of which no case is left, or only one without spatial atoms.
pub fn forced_atom(alloc: Global, defs: &Defs, heap: &Heap) -> Result<Option<Forced>, OutOfMemory> {
    for (place, atom) in heap.spatial().iter().enumerate() {
        if let Spatial::Pred(predicate, args) = atom {
            let cases = defs.cases(*predicate);
            let place = number_of(place);
            match survivors(alloc, heap, cases, args)?.as_slice() {
                [] => return Ok(Some(Forced { place, case: None })),
                [only] if is_empty_case(cases, *only) => {
                    let case = Some(*only);
                    return Ok(Some(Forced { place, case }));
                }
                _ => {}
            }
        }
    }
    Ok(None)
}
