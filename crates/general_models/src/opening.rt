// Cases whose open locals are parameters.
ghost use Rattle.std.specs.Prelude.{◌≡◌, ◌+◌, ◌≤◌, length, IfOk, OnOk, ◌++◌, ◌∷◌, []};
ghost use Rattle.heap_formula.specs.declared.atoms.Pure.TheVariants.{Eq};
ghost use Rattle.heap_formula.specs.declared.terms.Term.TheVariants.{Exist, Univ};
ghost use Rattle.cyc_basics.specs.Limits.{AreLimits};
ghost use Rattle.general_models.specs.RangedGrounding.{opened as opened_by};

use crate::faults::CheckFault;
use cyc_basics::limits::Limits;
use cyc_basics::memory::OutOfMemory;
use heap_formula::{Heap, HeapFault, Pure, Term, exists_in_heap};
use model_check::{ValueStep, is_heap_known, is_known, known_terms, steps_of};
use std::alloc::Global;

/// Locals of a formula that make all terms known once their values are: each is left open by the equations, the cells
/// and those before it.
pub fn open_locals(alloc: Global, heap: &Heap) -> Result<Vec<u16>, OutOfMemory> {
    let mut chosen = Vec::new(alloc);
    let mut steps = steps_of(alloc, heap)?;
    for n in 0..exists_in_heap(heap) {
        let known = known_terms(alloc, &steps)?;
        if is_heap_known(&known, heap) {
            return Ok(chosen);
        }
        let local = Term::Exist(n as u16);
        if !is_known(&known, local) {
            chosen.push(n as u16)?;
            steps.push(ValueStep::Same(Term::Nil, local))?;
        }
    }
    Ok(chosen)
}

/// Adds the equation of a local and a parameter.
fn push_choice(heap: &mut Heap, local: u16, parameter: u16, most: Limits) -> Result<(), CheckFault>
    requires { AreLimits most }
    ensures { OnOk result (heap.new ≡ record {
      pure
          = heap.old.pure ++ Eq (Exist local) (Univ parameter) ∷ [];
      spatial = heap.old.spatial;
    }) }
{
    match heap.push_pure(Pure::Eq(Term::Exist(local), Term::Univ(parameter)), most) {
        Ok(()) => Ok(()),
        Err(HeapFault::OutOfMemory) => Err(CheckFault::OutOfMemory),
        Err(HeapFault::TooManyAtoms) => Err(CheckFault::TooMuch),
        Err(HeapFault::NoFreshVariable) => Err(CheckFault::TooMuch),
    }
}

/// The formula with equations that make these locals parameters, from a number on; too much where a version with these
/// limits has no room for them.
pub fn opened(heap: &Heap, first: u32, chosen: &[u16], most: Limits) -> Result<Heap, CheckFault>
    requires limits { AreLimits most }
    requires numbers { first + length chosen.now ≤ 65536 }
    ensures { IfOk result (λ b. b ≡ opened_by heap.now first chosen.now) }
{
    let mut copy = heap.clone()?;
    for (i, local) in chosen.iter().enumerate() {
        push_choice(&mut copy, *local, (first as usize + i) as u16, most)?;
    }
    Ok(copy)
}
