// A problem's definitions, program and claim, and a run, as a run file.
ghost use Rattle.std.specs.Prelude.{◌≡◌, true, IfOk, MatchOption};
ghost use Rattle.heap_formula.specs.declared.judgements.Judgement.{Judgement};
ghost use Rattle.model_file.specs.Versions.{version_for};
ghost use Rattle.run_file.specs.Limits.{is_short_run as has_room};
ghost use Rattle.run_file.specs.Runs.{HasFile, IsRunFor};

use crate::problems::limits::is_short_run;
use crate::{Outcome, RunFile};
use cyc_basics::memory::OutOfMemory;
use formula_reader::Problem;
use general_models::runs::Pick;
use goto_lang::{Cells, Stack};
use heap_formula::{Heap, Judgement};
use model_file::ModelVersion;
use std::alloc::Global;

/// The run file of the problem's claim, in the version for the problem's, for a run that it has room for.
fn run_of_claim(
    problem: &Problem,
    line: u32,
    precondition: &Heap,
    stack: Vec<u64>,
    heap: Cells,
    picks: Vec<Pick>,
    outcome: Outcome,
) -> Result<RunFile, OutOfMemory>
    requires claim { problem.now.goal ≡ Judgement.Term line precondition.now }
    requires room { has_room (version_for problem.now.version) stack.items heap picks.items outcome ≡ true }
    ensures { IfOk result (IsRunFor problem.now stack.items heap picks.items outcome) }
{
    let version = ModelVersion::for_version(problem.version);
    let mut defs = problem.defs.clone()?;
    defs.set_most(version.limits());
    let program = problem.program.clone()?;
    let precondition = precondition.clone()?;
    Ok(RunFile {
        version,
        defs,
        program,
        line,
        precondition,
        stack: Stack::from_vec(stack),
        heap,
        picks,
        outcome,
    })
}

/// The run file with copies of the problem's definitions and program, its claim, and this run; it has version 3 where
/// the problem has, else version 1. There is none where the goal is an entailment, and where the format has no room for
/// the run: its numbers have at most nine digits, the stack at most 65,535 entries, the heap at most as many cells as
/// the version allows, and each cell a field at least and at most as many as the version allows; a run that grows has a
/// pair at least, and one that breaks an end has version 3. Whether the run refutes the claim is not asked.
pub fn run_for(
    alloc: Global,
    problem: &Problem,
    stack: Vec<u64>,
    heap: Cells,
    picks: Vec<Pick>,
    outcome: Outcome,
) -> Result<Option<RunFile>, OutOfMemory>
    ensures { IfOk result (λ o. MatchOption o
        (¬ HasFile problem.now.version problem.now.goal stack.items heap picks.items outcome)
        (IsRunFor problem.now stack.items heap picks.items outcome)) }
{
    let Judgement::Term(line, precondition) = &problem.goal else {
        return Ok(None);
    };
    let version = ModelVersion::for_version(problem.version);
    if !is_short_run(alloc, version, &stack, &heap, &picks, &outcome)? {
        return Ok(None);
    }
    let run = run_of_claim(problem, *line, precondition, stack, heap, picks, outcome)?;
    Ok(Some(run))
}
