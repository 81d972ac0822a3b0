// Models that show that a question has no frame.
ghost use Rattle.std.specs.Prelude.{◌≡◌, ◌∷◌, [], IfOk, IsTrue};
ghost use Rattle.heap_formula.specs.declared.judgements.Judgement.{Judgement as AnyJudgement};
ghost use Rattle.model_check.specs.Constructive.{AreConstructive, IsConstructive};
ghost use Rattle.solve_top.specs.Frames.{IsFrameless, IsSoughtModel};

use counter_model::files::model_for;
use cyc_basics::memory::OutOfMemory;
use formula_reader::Problem;
use goto_lang::{Cells, Stack};
use heap_formula::{Disjuncts, Heap, Judgement};
use model_check::{constructive, satisfied, satisfied_by_part};
use model_file::Model;
use pred_defs::Defs;
use refute_models::model_without_part;
use solver::{Budget, heap_of};
use std::alloc::Global;

/// Whether the definitions and a formula are constructive, so that models are decided.
fn is_constructive(alloc: Global, defs: &Defs, ask: &Heap) -> Result<bool, OutOfMemory>
    ensures definitions { IfOk result (λ yes. IsTrue yes → AreConstructive defs.now.list) }
    ensures formula { IfOk result (λ yes. IsTrue yes → IsConstructive ask.now) }
{
    let place = constructive(alloc, defs, ask)?;
    Ok(place.is_none())
}

/// Whether it is found out that the stack and the heap satisfy the antecedent, and that no part of the heap satisfies
/// what is asked for.
fn is_frameless(
    alloc: Global,
    defs: &Defs,
    antecedent: &Heap,
    wanted: &Heap,
    stack: &Stack,
    heap: &Cells,
) -> Result<bool, OutOfMemory>
    ensures { IfOk result (λ yes. IsTrue yes
        → IsFrameless defs.now.list antecedent.now wanted.now stack.now heap.now) }
{
    if !is_constructive(alloc, defs, antecedent)? || !is_constructive(alloc, defs, wanted)? {
        return Ok(false);
    }
    if !satisfied(alloc, defs, stack, heap, antecedent)? {
        return Ok(false);
    }
    let is_there = satisfied_by_part(alloc, defs, stack, heap, wanted)?;
    Ok(!is_there)
}

/// The stack and the heap as a model file, where they show that there is no frame.
fn checked(
    alloc: Global,
    problem: &Problem,
    antecedent: &Heap,
    disjuncts: &Disjuncts,
    wanted: &Heap,
    stack: Stack,
    heap: Cells,
) -> Result<Option<Model>, OutOfMemory>
    requires goal { problem.now.goal ≡ AnyJudgement.Entail antecedent.now disjuncts.now }
    requires asked { disjuncts.now ≡ wanted.now ∷ [] }
    ensures { IfOk result (IsSoughtModel problem.now) }
{
    if !is_frameless(alloc, &problem.defs, antecedent, wanted, &stack, &heap)? {
        return Ok(None);
    }
    model_for(alloc, problem, antecedent, disjuncts, stack, heap)
}

/// Searches for such a model of the antecedent, with an effort.
fn sought_model(
    alloc: Global,
    problem: &Problem,
    antecedent: &Heap,
    disjuncts: &Disjuncts,
    wanted: &Heap,
    effort: u32,
) -> Result<Option<Model>, OutOfMemory>
    requires goal { problem.now.goal ≡ AnyJudgement.Entail antecedent.now disjuncts.now }
    requires asked { disjuncts.now ≡ wanted.now ∷ [] }
    ensures { IfOk result (IsSoughtModel problem.now) }
{
    let defs = &problem.defs;
    if !is_constructive(alloc, defs, wanted)? {
        return Ok(None);
    }
    let rounds = Budget::whole(effort).rounds;
    let Some(model) = model_without_part(alloc, defs, antecedent, wanted, rounds)? else {
        return Ok(None);
    };
    let stack = Stack::from_vec(model.stack);
    let heap = heap_of(alloc, model.cells)?;
    checked(alloc, problem, antecedent, disjuncts, wanted, stack, heap)
}

/// A model of the antecedent no part of which satisfies what is asked for; that none is found means nothing. It is
/// looked for where the definitions and what is asked for are constructive.
pub fn frameless_model(
    alloc: Global,
    problem: &Problem,
    effort: u32,
) -> Result<Option<Model>, OutOfMemory>
    ensures { IfOk result (IsSoughtModel problem.now) }
{
    match &problem.goal {
        Judgement::Entail(antecedent, disjuncts) => match disjuncts.heaps() {
            [wanted] => sought_model(alloc, problem, antecedent, disjuncts, wanted, effort),
            _ => Ok(None),
        },
        Judgement::Term(_, _) => Ok(None),
    }
}
