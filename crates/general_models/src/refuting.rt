// Whether a stack and a heap refute an entailment.
ghost use Rattle.std.specs.Prelude.{◌↔◌, IsTrue, IfOk};
ghost use Rattle.heap_formula.specs.Meaning.{Satisfies, SatisfiesOne, EntailmentHolds};

use crate::faults::CheckFault;
use crate::general::satisfied_in_general;
use goto_lang::{Cells, Stack};
use heap_formula::Heap;
use pred_defs::Defs;
use std::alloc::Global;

/// Whether none of the formulas is satisfied. `most` bounds the choices made for each, as in `satisfied_in_general`.
pub fn none_satisfied(
    alloc: Global,
    defs: &Defs,
    stack: &Stack,
    heap: &Cells,
    asks: &[Heap],
    most: u64,
) -> Result<bool, CheckFault>
    ensures { IfOk result (λ none. IsTrue none ↔ (¬ SatisfiesOne defs.now.list stack.now heap.now asks.now)) }
{
    for ask in asks {
        let holds = satisfied_in_general(alloc, defs, stack, heap, ask, most)?;
        if holds {
            return Ok(false);
        }
    }
    Ok(true)
}

/// Whether the stack and the heap satisfy the antecedent and none of the disjuncts, for any definitions: then the
/// entailment does not hold. `most` bounds the choices made for each formula, as in `satisfied_in_general`.
pub fn refutes(
    alloc: Global,
    defs: &Defs,
    antecedent: &Heap,
    disjuncts: &[Heap],
    stack: &Stack,
    heap: &Cells,
    most: u64,
) -> Result<bool, CheckFault>
    ensures exact { IfOk result (λ yes. IsTrue yes ↔ (Satisfies defs.now.list stack.now heap.now antecedent.now
        × (¬ SatisfiesOne defs.now.list stack.now heap.now disjuncts.now))) }
    ensures refuted { IfOk result (λ yes. IsTrue yes
        → ¬ EntailmentHolds defs.now.list antecedent.now disjuncts.now) }
{
    let holds = satisfied_in_general(alloc, defs, stack, heap, antecedent, most)?;
    if !holds {
        return Ok(false);
    }
    none_satisfied(alloc, defs, stack, heap, disjuncts, most)
}
