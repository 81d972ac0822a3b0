// A run of a file, once more.
ghost use Rattle.std.specs.Prelude.{◌≡◌, ◌↔◌, ◌<◌, ◌≤◌, length, IsTrue, IfOk, MatchOption, Some, None};
ghost use Rattle.heap_formula.specs.Programs.{counted_from_one};
ghost use Rattle.goto_lang.specs.States.{state_of, IsStateOf};
ghost use Rattle.general_models.specs.Picks.{headroom_of};
ghost use Rattle.general_models.specs.Refuting.{IsRefuting};
ghost use Rattle.solver.specs.Runs.{BreaksEnd, ComesTo, EndsSo, IsAt, IsRight};

use crate::counter_models::MOST_CHOICES;
use cyc_basics::memory::OutOfMemory;
use general_models::runs::{Ending, Growth, Pick, RunEnd, headroom, is_refuting, run, start_state};
use general_models::{CheckFault, none_satisfied, satisfied_in_general};
use goto_lang::{Config, Program};
use heap_formula::Command;
use pred_defs::Defs;
use run_file::{Outcome, RunFile};
use std::alloc::Global;

/// Whether the run is at a line after so many steps.
fn is_at(
    alloc: Global,
    program: &Program,
    start: &Config,
    w: u64,
    picks: &[Pick],
    steps: u32,
    line: u32,
) -> Result<bool, OutOfMemory>
    requires { IsStateOf program.now (state_of start.now) }
    ensures { IfOk result (λ yes. IsTrue yes ↔ IsAt program.now w picks.now (state_of start.now) steps line) }
{
    match run(alloc, program, start, w, picks, u64::from(steps))? {
        RunEnd::Ends(_, _) => Ok(false),
        RunEnd::Reached(config) => Ok(config.line == line),
    }
}

/// Whether the run faults after so many steps, at this line.
fn faults_at(
    alloc: Global,
    program: &Program,
    start: &Config,
    w: u64,
    picks: &[Pick],
    step: u32,
    line: u32,
) -> Result<bool, OutOfMemory>
    requires { IsStateOf program.now (state_of start.now) }
    ensures { IfOk result (λ yes. IsTrue yes
        ↔ (IsRefuting program.now w picks.now (state_of start.now) (Ending.FaultAfter step)
        × IsAt program.now w picks.now (state_of start.now) step line)) }
{
    let ending = Ending::FaultAfter(step);
    let faults = is_refuting(alloc, program, start, w, picks, &ending)?;
    if !faults {
        return Ok(false);
    }
    is_at(alloc, program, start, w, picks, step, line)
}

/// The command of a line, if there is such a line.
fn command_at(program: &Program, line: u32) -> Option<&Command>
    ensures { MatchOption result (counted_from_one program.now line ≡ None) (λ c. counted_from_one program.now line
        ≡ Some c.now) }
{
    if line == 0 {
        return None;
    }
    program.lines().get(line as usize - 1)
}

/// Whether the state is at an end that it does not satisfy.
fn breaks_end(
    alloc: Global,
    defs: &Defs,
    program: &Program,
    config: &Config,
) -> Result<bool, CheckFault>
    ensures { IfOk result (λ yes. IsTrue yes
        ↔ BreaksEnd defs.now.list program.now (state_of config.now)) }
{
    match command_at(program, config.line) {
        Some(Command::Ends(ends)) => {
            let asks = ends.heaps();
            none_satisfied(alloc, defs, &config.stack, &config.heap, asks, MOST_CHOICES)
        }
        _ => Ok(false),
    }
}

/// Whether the run stops after so many steps at an end that does not hold.
fn breaks_after(
    alloc: Global,
    defs: &Defs,
    program: &Program,
    start: &Config,
    w: u64,
    picks: &[Pick],
    steps: u32,
) -> Result<bool, CheckFault>
    requires { IsStateOf program.now (state_of start.now) }
    ensures { IfOk result (λ yes. IsTrue yes
        ↔ ComesTo program.now w picks.now (state_of start.now) steps (BreaksEnd defs.now.list program.now)) }
{
    match run(alloc, program, start, w, picks, u64::from(steps))? {
        RunEnd::Ends(_, _) => Ok(false),
        RunEnd::Reached(config) => breaks_end(alloc, defs, program, &config),
    }
}

fn growing(growth: &Growth) -> Result<Ending, OutOfMemory>
    ensures { IfOk result (λ ending. ending ≡ Ending.Grow growth.now) }
{
    let growth = growth.clone()?;
    Ok(Ending::Grow(growth))
}

/// Whether the run from a state with these picks ends as is told. The question has no answer where too many choices of
/// locals would have to be tried for an end.
pub fn ends_so(
    alloc: Global,
    defs: &Defs,
    program: &Program,
    start: &Config,
    picks: &[Pick],
    outcome: &Outcome,
) -> Result<bool, CheckFault>
    requires { IsStateOf program.now (state_of start.now) }
    ensures { IfOk result (λ yes. IsTrue yes
        ↔ EndsSo defs.now.list program.now (headroom_of picks.now) picks.now (state_of start.now) outcome.now) }
{
    let w = headroom(picks);
    match outcome {
        Outcome::Faults { line, step } => {
            let faults = faults_at(alloc, program, start, w, picks, *step, *line)?;
            Ok(faults)
        }
        Outcome::Repeats { first, again } => {
            let ending = Ending::Repeat(*first, *again);
            let repeats = is_refuting(alloc, program, start, w, picks, &ending)?;
            Ok(repeats)
        }
        Outcome::Grows(growth) => {
            let ending = growing(growth)?;
            let grows = is_refuting(alloc, program, start, w, picks, &ending)?;
            Ok(grows)
        }
        Outcome::Breaks { step } => breaks_after(alloc, defs, program, start, w, picks, *step),
    }
}

/// Whether the stack and the heap of a run file satisfy its precondition, and the run from there, with its picks, ends
/// as it tells: then the program does not halt from there, or it stops at an end that does not hold, and the claim does
/// not hold. The question has no answer where too many choices of locals would have to be tried for the precondition or
/// for an end.
pub fn is_right(alloc: Global, file: &RunFile) -> Result<bool, CheckFault>
    ensures exact { IfOk result (λ yes. IsTrue yes ↔ IsRight file.now) }
{
    let begins = satisfied_in_general(
        alloc,
        &file.defs,
        &file.stack,
        &file.heap,
        &file.precondition,
        MOST_CHOICES,
    )?;
    if !begins {
        return Ok(false);
    }
    let start = start_state(alloc, &file.program, file.line, &file.stack, &file.heap)?;
    ends_so(
        alloc,
        &file.defs,
        &file.program,
        &start,
        &file.picks,
        &file.outcome,
    )
}
