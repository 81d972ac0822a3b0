// Whether a run shows that the program does not halt.
ghost use Rattle.std.specs.Prelude.{◌≡◌, ◌↔◌, ◌<◌, ◌≤◌, length, IsTrue, IfOk};
ghost use Rattle.heap_formula.specs.Programs.{first_values, start_at};
ghost use Rattle.goto_lang.specs.States.{state_of, IsStateOf};
ghost use Rattle.general_models.specs.Refuting.{IsRefuting, IsState};

use crate::runs::alike::are_alike;
use crate::runs::comparing::same_states;
use crate::runs::fresh::fresh_state_after;
use crate::runs::growth::Growth;
use crate::runs::picks::Pick;
use crate::runs::running::{Cause, RunEnd, run};
use cyc_basics::memory::OutOfMemory;
use goto_lang::{Cells, Config, Program, Stack};
use std::alloc::Global;

/// How a run is to end: by a fault after this many steps; or it comes back, and is in one state after each of these two
/// numbers of steps, the first less than the second; or it comes back with more.
#[derive(Clone, Drop)]
pub enum Ending {
    FaultAfter(u32),
    Repeat(u32, u32),
    Grow(Growth),
}

fn is_fault(cause: Cause) -> bool
    ensures { IsTrue result ↔ (cause ≡ Cause.Fault) }
{
    matches!(cause, Cause::Fault)
}

fn is_fault_after(end: &RunEnd, n: u64) -> bool
    ensures { IsTrue result ↔ (end.now ≡ RunEnd.Ends n Cause.Fault) }
{
    match end {
        RunEnd::Ends(steps, cause) => *steps == n && is_fault(*cause),
        RunEnd::Reached(_) => false,
    }
}

fn faults_after(
    alloc: Global,
    program: &Program,
    start: &Config,
    w: u64,
    picks: &[Pick],
    n: u32,
) -> Result<bool, OutOfMemory>
    requires { IsStateOf program.now (state_of start.now) }
    ensures { IfOk result (λ yes. IsTrue yes
        ↔ IsRefuting program.now w picks.now (state_of start.now) (Ending.FaultAfter n)) }
{
    let end = run(alloc, program, start, w, picks, n as u64 + 1)?;
    Ok(is_fault_after(&end, n as u64))
}

/// The state after so many steps, if the run makes them.
fn state_after(
    alloc: Global,
    program: &Program,
    start: &Config,
    w: u64,
    picks: &[Pick],
    steps: u32,
) -> Result<Option<Config>, OutOfMemory>
    requires { IsStateOf program.now (state_of start.now) }
    ensures { IfOk result (IsState program.now w picks.now steps (state_of start.now)) }
{
    let end = run(alloc, program, start, w, picks, steps as u64)?;
    match end {
        RunEnd::Ends(_, _) => Ok(None),
        RunEnd::Reached(config) => Ok(Some(config)),
    }
}

fn comes_back(
    alloc: Global,
    program: &Program,
    start: &Config,
    w: u64,
    picks: &[Pick],
    first: u32,
    again: u32,
) -> Result<bool, OutOfMemory>
    requires { IsStateOf program.now (state_of start.now) }
    ensures { IfOk result (λ yes. IsTrue yes
        ↔ IsRefuting program.now w picks.now (state_of start.now) (Ending.Repeat first again)) }
{
    if first >= again {
        return Ok(false);
    }
    let Some(one) = state_after(alloc, program, start, w, picks, first)? else {
        return Ok(false);
    };
    let Some(other) = state_after(alloc, program, start, w, picks, again)? else {
        return Ok(false);
    };
    same_states(alloc, &one, &other)
}

fn comes_back_with_more(
    alloc: Global,
    program: &Program,
    start: &Config,
    w: u64,
    picks: &[Pick],
    growth: &Growth,
) -> Result<bool, OutOfMemory>
    requires { IsStateOf program.now (state_of start.now) }
    ensures { IfOk result (λ yes. IsTrue yes
        ↔ IsRefuting program.now w picks.now (state_of start.now) (Ending.Grow growth.now)) }
{
    if growth.first >= growth.again {
        return Ok(false);
    }
    let Some(one) = state_after(alloc, program, start, w, picks, growth.first)? else {
        return Ok(false);
    };
    let later = fresh_state_after(alloc, program, start, w, picks, growth.first, growth.again)?;
    let Some(other) = later else {
        return Ok(false);
    };
    Ok(are_alike(growth.renaming.as_slice(), &one, &other))
}

/// Whether the run from a state with these picks, under headroom w, ends as is said: then the program does not halt
/// from there. The caller has a state of the program, as `is_state_of` tests; `headroom` gives a headroom that allows
/// the numbers of the picks.
pub fn is_refuting(
    alloc: Global,
    program: &Program,
    start: &Config,
    w: u64,
    picks: &[Pick],
    ending: &Ending,
) -> Result<bool, OutOfMemory>
    requires { IsStateOf program.now (state_of start.now) }
    ensures exact { IfOk result (λ yes. IsTrue yes
        ↔ IsRefuting program.now w picks.now (state_of start.now) ending.now) }
{
    match ending {
        Ending::FaultAfter(n) => faults_after(alloc, program, start, w, picks, *n),
        Ending::Repeat(first, again) => {
            comes_back(alloc, program, start, w, picks, *first, *again)
        }
        Ending::Grow(growth) => { comes_back_with_more(alloc, program, start, w, picks, growth) }
    }
}

fn first_entries(alloc: Global, count: u16, stack: &Stack) -> Result<Vec<u64>, OutOfMemory>
    ensures { IfOk result (λ v. v.items ≡ first_values count stack.now) }
{
    let mut values = Vec::new(alloc);
    for i in 0..count {
        values.push(stack.get(i))?;
    }
    Ok(values)
}

/// Where a run begins: a line, the program variables' values of a stack, and a heap.
pub fn start_state(
    alloc: Global,
    program: &Program,
    line: u32,
    stack: &Stack,
    heap: &Cells,
) -> Result<Config, OutOfMemory>
    requires from_one { 0 < line }
    requires to_last { line ≤ length program.now }
    ensures value { IfOk result (λ c. state_of c ≡ start_at program.now line stack.now heap.now) }
    ensures state { IfOk result (λ c. IsStateOf program.now (state_of c)) }
{
    let values = first_entries(alloc, program.variables(), stack)?;
    let heap = heap.clone()?;
    Ok(Config {
        line,
        stack: Stack::from_vec(values),
        heap,
    })
}
