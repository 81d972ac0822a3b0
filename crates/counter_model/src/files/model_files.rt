// The model file of a stack and a heap for a problem's antecedent.
ghost use Rattle.std.specs.Prelude.{◌≡◌, IfOk};
ghost use Rattle.heap_formula.specs.declared.judgements.Judgement.{Judgement};
ghost use Rattle.model_file.specs.Versions.{model_limits, version_for};
ghost use Rattle.counter_model.specs.States.{IsPlainState};
ghost use Rattle.counter_model.specs.Files.{IsModelFor, IsFileFor};

use crate::files::states::is_plain_state;
use cyc_basics::memory::OutOfMemory;
use formula_reader::Problem;
use goto_lang::{Cells, Stack};
use heap_formula::{Disjuncts, Heap};
use model_file::{Model, ModelVersion};
use std::alloc::Global;

/// The model file that asks whether a stack and a heap, which may stand in one, satisfy the antecedent of a problem's
/// goal.
pub fn plain_model(
    alloc: Global,
    problem: &Problem,
    antecedent: &Heap,
    _disjuncts: &Disjuncts,
    stack: Stack,
    heap: Cells,
) -> Result<Model, OutOfMemory>
    requires goal { problem.now.goal ≡ Judgement.Entail antecedent.now _disjuncts.now }
    requires plain { IsPlainState (model_limits (version_for problem.now.version)) stack heap }
    ensures { IfOk result (IsFileFor problem.now antecedent.now stack heap) }
{
    let version = ModelVersion::for_version(problem.version);
    let mut defs = problem.defs.clone()?;
    defs.set_most(version.limits());
    let ask = antecedent.clone()?;
    let model = Model {
        version,
        defs,
        stack,
        heap,
        ask,
    };
    Ok(model)
}

/// The model file that asks whether a stack and a heap satisfy the antecedent of a problem's goal; none where they are
/// too large for one of the version for the problem's: it has at most 65,535 values of the stack, as many cells, and
/// fields of a cell, as its version allows, and numbers of at most nine digits.
pub fn model_for(
    alloc: Global,
    problem: &Problem,
    antecedent: &Heap,
    disjuncts: &Disjuncts,
    stack: Stack,
    heap: Cells,
) -> Result<Option<Model>, OutOfMemory>
    requires { problem.now.goal ≡ Judgement.Entail antecedent.now disjuncts.now }
    ensures { IfOk result (IsModelFor problem.now antecedent.now stack heap) }
{
    let most = ModelVersion::for_version(problem.version).limits();
    if !is_plain_state(alloc, most, &stack, &heap)? {
        return Ok(None);
    }
    let model = plain_model(alloc, problem, antecedent, disjuncts, stack, heap)?;
    Ok(Some(model))
}
