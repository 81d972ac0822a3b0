// The search for a counter-model, and its check.
ghost use Rattle.std.specs.Prelude.{◌≡◌, IfOk, IsTrue};
ghost use Rattle.heap_formula.specs.declared.judgements.Judgement.{Judgement};
ghost use Rattle.solver.specs.Solutions.{IsFoundCounter, IsRefuting};

use counter_model::files::model_for;
use cyc_basics::memory::OutOfMemory;
use formula_reader::Problem;
use general_models::derivations::{CaseStep, refutes_by_derivation};
use general_models::{CheckFault, refutes};
use goto_lang::{Cells, Stack};
use heap_formula::{Disjuncts, Heap};
use model_file::Model;
use refute_models::{Cell, counter_model};
use std::alloc::Global;

/// The most choices of locals that are tried for one formula in a check.
pub const MOST_CHOICES: u64 = 100_000;

/// The heap of these cells; those without an address or a field are left out.
pub fn heap_of(alloc: Global, cells: Vec<Cell>) -> Result<Cells, OutOfMemory> {
    let mut heap = Cells::new(alloc);
    for cell in cells {
        if cell.address > 0 && !cell.fields.is_empty() {
            heap.put(cell.address, cell.fields)?;
        }
    }
    Ok(heap)
}

/// Whether the steps are a derivation of the antecedent, and it is found out that no disjunct is satisfied.
fn is_derived(
    alloc: Global,
    problem: &Problem,
    antecedent: &Heap,
    disjuncts: &Disjuncts,
    stack: &Stack,
    heap: &Cells,
    steps: &[CaseStep],
) -> Result<bool, OutOfMemory>
    ensures { IfOk result (λ yes. IsTrue yes
        → IsRefuting problem.now.defs.list antecedent.now disjuncts.now stack.now heap.now) }
{
    let defs = &problem.defs;
    let asked = disjuncts.heaps();
    let most = MOST_CHOICES;
    match refutes_by_derivation(alloc, defs, antecedent, asked, stack, heap, steps, most) {
        Ok(yes) => Ok(yes),
        Err(CheckFault::TooMuch) => Ok(false),
        Err(CheckFault::OutOfMemory) => Err(OutOfMemory),
    }
}

/// Whether it is found out that the stack and the heap satisfy the antecedent and no disjunct.
fn is_refuting(
    alloc: Global,
    problem: &Problem,
    antecedent: &Heap,
    disjuncts: &Disjuncts,
    stack: &Stack,
    heap: &Cells,
) -> Result<bool, OutOfMemory>
    ensures { IfOk result (λ yes. IsTrue yes
        → IsRefuting problem.now.defs.list antecedent.now disjuncts.now stack.now heap.now) }
{
    let asked = disjuncts.heaps();
    match refutes(
        alloc,
        &problem.defs,
        antecedent,
        asked,
        stack,
        heap,
        MOST_CHOICES,
    ) {
        Ok(yes) => Ok(yes),
        Err(CheckFault::TooMuch) => Ok(false),
        Err(CheckFault::OutOfMemory) => Err(OutOfMemory),
    }
}

/// Whether it is found out, by the derivation or without it.
fn is_known_refuting(
    alloc: Global,
    problem: &Problem,
    antecedent: &Heap,
    disjuncts: &Disjuncts,
    stack: &Stack,
    heap: &Cells,
    steps: &[CaseStep],
) -> Result<bool, OutOfMemory>
    ensures { IfOk result (λ yes. IsTrue yes
        → IsRefuting problem.now.defs.list antecedent.now disjuncts.now stack.now heap.now) }
{
    let derived = is_derived(alloc, problem, antecedent, disjuncts, stack, heap, steps)?;
    if derived {
        return Ok(true);
    }
    is_refuting(alloc, problem, antecedent, disjuncts, stack, heap)
}

/// The stack and the heap as a model file, where they satisfy the antecedent and no disjunct.
fn checked(
    alloc: Global,
    problem: &Problem,
    antecedent: &Heap,
    disjuncts: &Disjuncts,
    stack: Stack,
    heap: Cells,
    steps: &[CaseStep],
) -> Result<Option<Model>, OutOfMemory>
    requires { problem.now.goal ≡ Judgement.Entail antecedent.now disjuncts.now }
    ensures { IfOk result (IsFoundCounter problem.now) }
{
    let yes = is_known_refuting(alloc, problem, antecedent, disjuncts, &stack, &heap, steps)?;
    if !yes {
        return Ok(None);
    }
    model_for(alloc, problem, antecedent, disjuncts, stack, heap)
}

/// Searches for a counter-model of an entailment, in so many rounds.
pub fn refuting_model(
    alloc: Global,
    problem: &Problem,
    antecedent: &Heap,
    disjuncts: &Disjuncts,
    rounds: u32,
) -> Result<Option<Model>, OutOfMemory>
    requires { problem.now.goal ≡ Judgement.Entail antecedent.now disjuncts.now }
    ensures { IfOk result (IsFoundCounter problem.now) }
{
    let asked = disjuncts.heaps();
    match counter_model(alloc, &problem.defs, antecedent, asked, rounds)? {
        None => Ok(None),
        Some(model) => {
            let stack = Stack::from_vec(model.stack);
            let heap = heap_of(alloc, model.cells)?;
            checked(
                alloc,
                problem,
                antecedent,
                disjuncts,
                stack,
                heap,
                &model.steps,
            )
        }
    }
}
