// The order in which atoms are unfolded.
use cyc_basics::memory::OutOfMemory;
use heap_formula::{Heap, Spatial};
use pred_defs::Defs;
use seek_shapes::{number_of, survivors};
use std::alloc::Global;

/// A predicate atom: whether its predicate leads back to itself, and a case with spatial atoms is left; how many cases
/// are left; and its place. The less the sooner it is unfolded.
#[derive(Clone, Copy)]
pub struct Unfolding {
    pub is_recursive: bool,
    pub cases: usize,
    pub place: u32,
}

fn push_predicates(found: &mut Vec<u16>, atoms: &[Spatial]) -> Result<(), OutOfMemory> {
    for atom in atoms {
        if let Spatial::Pred(predicate, _) = atom {
            if !found.contains(predicate) {
                found.push(*predicate)?;
            }
        }
    }
    Ok(())
}

fn push_users(found: &mut Vec<u16>, cases: &[Heap]) -> Result<(), OutOfMemory> {
    for case in cases {
        push_predicates(found, case.spatial())?;
    }
    Ok(())
}

/// Whether a predicate's cases lead back to it.
fn is_recursive(alloc: Global, defs: &Defs, predicate: u16) -> Result<bool, OutOfMemory> {
    let mut found = Vec::new(alloc);
    push_users(&mut found, defs.cases(predicate))?;
    for turn in 0..defs.as_slice().len() {
        let Some(next) = found.get(turn).copied() else {
            break;
        };
        push_users(&mut found, defs.cases(next))?;
    }
    Ok(found.contains(&predicate))
}

fn some_has_atoms(cases: &[Heap], left: &[u32]) -> bool {
    for number in left {
        if let Some(case) = cases.get(*number as usize) {
            if !case.spatial().is_empty() {
                return true;
            }
        }
    }
    false
}

/// The predicate atoms of an antecedent.
pub fn unfoldings(alloc: Global, defs: &Defs, heap: &Heap) -> Result<Vec<Unfolding>, OutOfMemory> {
    let mut found = Vec::new(alloc);
    for (place, atom) in heap.spatial().iter().enumerate() {
        if let Spatial::Pred(predicate, args) = atom {
            let cases = defs.cases(*predicate);
            let left = survivors(alloc, heap, cases, args)?;
            let is_open = left.len() != 1 || some_has_atoms(cases, &left);
            found.push(Unfolding {
                is_recursive: is_open && is_recursive(alloc, defs, *predicate)?,
                cases: left.len(),
                place: number_of(place),
            })?;
        }
    }
    Ok(found)
}

fn weight(unfolding: &Unfolding) -> (bool, usize, u32) {
    (unfolding.is_recursive, unfolding.cases, unfolding.place)
}

/// The same in the order in which they are unfolded.
pub fn ordered_unfoldings(
    alloc: Global,
    defs: &Defs,
    heap: &Heap,
) -> Result<Vec<Unfolding>, OutOfMemory> {
    let mut found = unfoldings(alloc, defs, heap)?;
    found.sort_by_key(weight)?;
    Ok(found)
}
