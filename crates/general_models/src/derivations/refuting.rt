// Whether a stack and a heap, with a derivation, refute an entailment.
ghost use Rattle.std.specs.Prelude.{◌↔◌, IsTrue, IfOk};
ghost use Rattle.heap_formula.specs.Meaning.{Satisfies, SatisfiesOne, EntailmentHolds};
ghost use Rattle.general_models.specs.Derivations.{IsDerivation};

use crate::derivations::derivations::is_derivation;
use crate::derivations::steps::CaseStep;
use crate::{CheckFault, none_satisfied};
use goto_lang::{Cells, Stack};
use heap_formula::Heap;
use pred_defs::Defs;
use std::alloc::Global;

/// Whether the steps are a derivation that the stack and the heap satisfy the antecedent, and these satisfy none of the
/// disjuncts: then the entailment does not hold. `most` bounds the choices made for each disjunct, as in
/// `satisfied_in_general`; the antecedent takes none.
pub fn refutes_by_derivation(
    alloc: Global,
    defs: &Defs,
    antecedent: &Heap,
    disjuncts: &[Heap],
    stack: &Stack,
    heap: &Cells,
    steps: &[CaseStep],
    most: u64,
) -> Result<bool, CheckFault>
    ensures exact { IfOk result (λ yes. IsTrue yes
        ↔ (IsDerivation defs.now.list stack.now heap.now antecedent.now steps.now
        × (¬ SatisfiesOne defs.now.list stack.now heap.now disjuncts.now))) }
    ensures satisfied { IfOk result (λ yes. IsTrue yes
        → Satisfies defs.now.list stack.now heap.now antecedent.now) }
    ensures refuted { IfOk result (λ yes. IsTrue yes
        → ¬ EntailmentHolds defs.now.list antecedent.now disjuncts.now) }
{
    let holds = is_derivation(alloc, defs, stack, heap, antecedent, steps)?;
    if !holds {
        return Ok(false);
    }
    none_satisfied(alloc, defs, stack, heap, disjuncts, most)
}
