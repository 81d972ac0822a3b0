// The search for a faulty run, and its check.
ghost use Rattle.std.specs.Prelude.{IfOk, IsTrue};
ghost use Rattle.solver.specs.Runs.{IsRight};
ghost use Rattle.solver.specs.Solutions.{IsFoundRun};

use crate::counter_models::heap_of;
use crate::reruns::is_right;
use cyc_basics::memory::OutOfMemory;
use formula_reader::Problem;
use general_models::CheckFault;
use general_models::runs::{Ending, Pick, RunEnd, headroom, run};
use goto_lang::{Cells, Config, Program, Stack};
use heap_formula::Heap;
use refute_runs::{FaultyRun, Finish, faulty_run};
use run_file::problems::run_for;
use run_file::{Outcome, RunFile};
use std::alloc::Global;

/// The line where a run from a state is after so many steps; 0 where it does not make them.
fn line_after(
    alloc: Global,
    program: &Program,
    start: &Config,
    picks: &[Pick],
    steps: u32,
) -> Result<u32, OutOfMemory> {
    if !start.is_state_of(program) {
        return Ok(0);
    }
    match run(
        alloc,
        program,
        start,
        headroom(picks),
        picks,
        u64::from(steps),
    )? {
        RunEnd::Ends(_, _) => Ok(0),
        RunEnd::Reached(config) => Ok(config.line),
    }
}

/// How a run ends, with the line where it faults.
fn outcome(
    alloc: Global,
    program: &Program,
    line: u32,
    stack: &[u64],
    heap: &Cells,
    picks: &[Pick],
    finish: Finish,
) -> Result<Outcome, OutOfMemory> {
    match finish {
        Finish::BreaksEnd(step) => Ok(Outcome::Breaks { step }),
        Finish::Refutes(Ending::Repeat(first, again)) => Ok(Outcome::Repeats { first, again }),
        Finish::Refutes(Ending::Grow(growth)) => Ok(Outcome::Grows(growth)),
        Finish::Refutes(Ending::FaultAfter(step)) => {
            let count = (program.variables() as usize).min(stack.len());
            let start = Config {
                line,
                stack: Stack::from_vec(Vec::from_slice(alloc, &stack[..count])?),
                heap: heap.clone()?,
            };
            let line = line_after(alloc, program, &start, picks, step)?;
            Ok(Outcome::Faults { line, step })
        }
    }
}

/// Whether it is found out that the run is as its file tells.
fn is_known_right(alloc: Global, file: &RunFile) -> Result<bool, OutOfMemory>
    ensures { IfOk result (λ yes. IsTrue yes → IsRight file.now) }
{
    match is_right(alloc, file) {
        Ok(yes) => Ok(yes),
        Err(CheckFault::TooMuch) => Ok(false),
        Err(CheckFault::OutOfMemory) => Err(OutOfMemory),
    }
}

/// The run as a file, where it is as the file tells.
fn checked(
    alloc: Global,
    problem: &Problem,
    line: u32,
    run: FaultyRun,
) -> Result<Option<RunFile>, OutOfMemory>
    ensures { IfOk result (IsFoundRun problem.now) }
{
    let heap = heap_of(alloc, run.cells)?;
    let finish = run.finish;
    let outcome = outcome(
        alloc,
        &problem.program,
        line,
        &run.stack,
        &heap,
        &run.picks,
        finish,
    )?;
    let Some(file) = run_for(alloc, problem, run.stack, heap, run.picks, outcome)? else {
        return Ok(None);
    };
    let yes = is_known_right(alloc, &file)?;
    if !yes {
        return Ok(None);
    }
    Ok(Some(file))
}

/// Searches for a run of the goal's program from a state of its precondition, which faults, comes back, perhaps with
/// more, or stops at an end that does not hold, in so many rounds.
pub fn refuting_run(
    alloc: Global,
    problem: &Problem,
    line: u32,
    precondition: &Heap,
    rounds: u32,
) -> Result<Option<RunFile>, OutOfMemory>
    ensures { IfOk result (IsFoundRun problem.now) }
{
    let program = &problem.program;
    match faulty_run(alloc, &problem.defs, program, line, precondition, rounds)? {
        Some(run) => checked(alloc, problem, line, run),
        None => Ok(None),
    }
}
