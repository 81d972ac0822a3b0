// Whether steps are a derivation.
ghost use Rattle.std.specs.Prelude.{◌↔◌, ◌≡◌, ◌∷◌, [], List, reverse, IfOk, IsTrue, MatchOption, Some, None, slice_get};
ghost use Rattle.heap_formula.specs.Cells.{no_cells};
ghost use Rattle.heap_formula.specs.Meaning.{Satisfies, cases_of};
ghost use Rattle.general_models.specs.declared.derivations.steps.CaseStep.{CaseStep};
ghost use Rattle.general_models.specs.Derivations.{Derives, IsDerivation};

use crate::derivations::opening::open;
use crate::derivations::steps::CaseStep;
use cyc_basics::memory::OutOfMemory;
use goto_lang::{Cells, Stack};
use heap_formula::Heap;
use model_check::Question;
use pred_defs::Defs;
use std::alloc::Global;

fn is_empty(heap: &Cells) -> bool
    ensures { IsTrue result ↔ (heap.now ≡ no_cells) }
{
    heap.len() == 0
}

fn case_at(defs: &Defs, predicate: u16, case: u32) -> Option<&Heap>
    ensures { let there = slice_get (cases_of defs.now.list predicate) case in
        MatchOption result (there ≡ None) (λ b. there ≡ Some b.now) }
{
    defs.cases(predicate).get(case as usize)
}

/// Opens the topmost pending atom by a step; false where none is pending, it has no such case, or that does not fit.
fn take_step(
    alloc: Global,
    defs: &Defs,
    pending: &mut Vec<Question>,
    left: &mut Cells,
    step: &CaseStep,
) -> Result<bool, OutOfMemory>
    ensures { IfOk result (λ b. (rest : List CaseStep)
        → Derives defs.now.list (step.now ∷ rest) (reverse pending.old.items) left.old
        ↔ (IsTrue b × Derives defs.now.list rest (reverse pending.new.items) left.new)) }
{
    let Some(atom) = pending.pop() else {
        return Ok(false);
    };
    let Some(case) = case_at(defs, atom.predicate(), step.case) else {
        return Ok(false);
    };
    let locals = step.locals.as_slice();
    let fits = open(alloc, pending, left, atom.values(), locals, case)?;
    Ok(fits)
}

fn take_steps(
    alloc: Global,
    defs: &Defs,
    pending: &mut Vec<Question>,
    left: &mut Cells,
    steps: &[CaseStep],
) -> Result<bool, OutOfMemory>
    ensures { IfOk result (λ b. IsTrue b
        ↔ Derives defs.now.list steps.now (reverse pending.old.items) left.old) }
{
    for step in steps {
        if !take_step(alloc, defs, pending, left, step)? {
            return Ok(false);
        }
    }
    Ok(pending.is_empty() && is_empty(left))
}

/// Whether the steps are a derivation that the stack and the heap satisfy the formula: they go depth first, the first
/// predicate atom of a formula or case before its others. Existential variables of the formula itself are 0, and an
/// antecedent has none. The work grows with the steps, the atoms of their cases and the cells, by a logarithm more.
pub fn is_derivation(
    alloc: Global,
    defs: &Defs,
    stack: &Stack,
    heap: &Cells,
    ask: &Heap,
    steps: &[CaseStep],
) -> Result<bool, OutOfMemory>
    ensures exact { IfOk result (λ b. IsTrue b
        ↔ IsDerivation defs.now.list stack.now heap.now ask.now steps.now) }
    ensures satisfied { IfOk result (λ b. IsTrue b → Satisfies defs.now.list stack.now heap.now ask.now) }
{
    let mut left = heap.clone()?;
    let mut pending = Vec::new(alloc);
    if !open(alloc, &mut pending, &mut left, stack.as_slice(), &[], ask)? {
        return Ok(false);
    }
    let derives = take_steps(alloc, defs, &mut pending, &mut left, steps)?;
    Ok(derives)
}
