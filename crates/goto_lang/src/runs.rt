// Runs in which `new` takes the least free address and `if *` goes to the next line.
ghost use Rattle.std.specs.Prelude.{◌≡◌, ◌<◌, ◌↔◌, IfOk};
ghost use Rattle.heap_formula.specs.Programs.{Config as State};
ghost use Rattle.goto_lang.specs.declared.configs.Config.{Config};
ghost use Rattle.goto_lang.specs.States.{state_of, IsStateOf};
ghost use Rattle.goto_lang.specs.Endings.{zero_fields, IsLowestPick, LowestRun, IsEnding, IsLowest};

use crate::cells::Cells;
use crate::configs::Config;
use crate::programs::Program;
use crate::steps::{Stepped, perform};
use cyc_basics::memory::OutOfMemory;
use heap_formula::Command;
use std::alloc::Global;

/// How a run ends: it is at `stop`, or it faults, after this many steps; or it has made all its steps and
/// does neither.
#[derive(Clone, Copy, PartialEq, Eq, Debug)]
pub enum Ran {
    Stopped(u64),
    Faulted(u64),
    Running,
}

fn zeros(alloc: Global, command: &Command) -> Result<Vec<u64>, OutOfMemory>
    ensures { IfOk result (λ v. v.items ≡ zero_fields command.now) }
{
    match command {
        Command::New(_, k) => Ok(vec![in alloc; 0u64; *k as usize]?),
        Command::Assign(_, _)
        | Command::Load(_, _, _)
        | Command::Store(_, _, _)
        | Command::Free(_)
        | Command::IfEq(_, _, _)
        | Command::IfNeq(_, _, _)
        | Command::IfAny(_)
        | Command::Goto(_)
        | Command::Stop
        | Command::Ends(_) => Ok(Vec::new(alloc)),
    }
}

fn lowest_pick(command: &Command, heap: &Cells) -> u64
    ensures { IsLowestPick command.now heap.now result }
{
    match command {
        Command::IfAny(_) => 0,
        Command::New(_, _)
        | Command::Assign(_, _)
        | Command::Load(_, _, _)
        | Command::Store(_, _, _)
        | Command::Free(_)
        | Command::IfEq(_, _, _)
        | Command::IfNeq(_, _, _)
        | Command::Goto(_)
        | Command::Stop
        | Command::Ends(_) => heap.least_free(),
    }
}

fn lowest_step(alloc: Global, program: &Program, config: &Config) -> Result<Stepped, OutOfMemory>
    requires { IsStateOf program.now (state_of config.now) }
    ensures { IfOk result (λ r. IsLowest program.now (state_of config.now) r) }
{
    let command = program.command(config.line);
    let fill = zeros(alloc, command)?;
    let pick = lowest_pick(command, &config.heap);
    perform(alloc, command, config, pick, &fill)
}

fn ending(alloc: Global, program: &Program, config: &Config, steps: u64) -> Result<Ran, OutOfMemory>
    requires { IsStateOf program.now (state_of config.now) }
    ensures { (c : State) → LowestRun program.now steps c (state_of config.now)
        → IfOk result (λ r. IsEnding program.now steps c r) }
{
    match lowest_step(alloc, program, config)? {
        Stepped::Stop => Ok(Ran::Stopped(steps)),
        Stepped::Fault => Ok(Ran::Faulted(steps)),
        Stepped::To(_) => Ok(Ran::Running),
        Stepped::BadPick => unreachable!(),
    }
}

/// Runs the program from a state for at most so many steps; `new` takes the least free address and fills with 0, and
/// `if *` goes to the next line. Each answer comes exactly where the run ends so, and each of its steps is one of the
/// machine's whatever the headroom, if that is positive. The caller has a state of the program, as `is_state_of` tests.
pub fn run_lowest(
    alloc: Global,
    program: &Program,
    config: &Config,
    steps: u64,
) -> Result<Ran, OutOfMemory>
    requires { IsStateOf program.now (state_of config.now) }
    ensures answer { IfOk result (λ r. (q : Ran) → (r ≡ q) ↔ IsEnding program.now steps (state_of config.now) q) }
{
    let mut current = config.clone()?;
    for done in 0..steps {
        match lowest_step(alloc, program, &current)? {
            Stepped::Stop => return Ok(Ran::Stopped(done)),
            Stepped::Fault => return Ok(Ran::Faulted(done)),
            Stepped::To(next) => current = next,
            Stepped::BadPick => unreachable!(),
        }
    }
    ending(alloc, program, &current, steps)
}
