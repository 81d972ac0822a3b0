// Runs that take their choices from a list.
ghost use Rattle.std.specs.Prelude.{◌≡◌, ◌↔◌, ◌<◌, IfOk, slice_get};
ghost use Rattle.goto_lang.specs.States.{state_of, IsStateOf};
ghost use Rattle.general_models.specs.Picks.{suits as suited, picks_of as taken_by, address_of as address_in};
ghost use Rattle.general_models.specs.Picks.{fields_of as fields_in};
ghost use Rattle.general_models.specs.Runs.{IsRunEnd};
ghost use Rattle.general_models.specs.Moves.{IsMove};

use crate::runs::picks::Pick;
use cyc_basics::memory::OutOfMemory;
use goto_lang::{Config, Program, Stepped, step};
use heap_formula::Command;
use std::alloc::Global;

/// Why a run makes no further step: it is at `stop`; the command reads, writes or frees what is not there; the next
/// pick is missing or of another kind than the command takes; it is not allowed; or the greatest number of the state
/// and the headroom together pass 64 bits.
#[derive(Clone, Copy, PartialEq, Eq, Debug)]
pub enum Cause {
    Stop,
    Fault,
    NoPick,
    BadPick,
    TooGreat,
}

/// What a run comes to: it ends after this many steps, or it makes all its steps and is in this state.
#[derive(Drop)]
pub enum RunEnd {
    Ends(u64, Cause),
    Reached(Config),
}

/// What a step of a run comes to.
#[derive(Drop)]
pub enum Move {
    To(Config),
    None(Cause),
}

fn suits(command: &Command, picks: &[Pick], used: usize) -> bool
    ensures { result ≡ suited command.now (slice_get picks.now used) }
{
    match command {
        Command::New(_, _) => matches!(picks.get(used), Some(Pick::Cell(_, _))),
        Command::IfAny(_) => matches!(picks.get(used), Some(Pick::Jumps(_))),
        Command::Assign(_, _)
        | Command::Load(_, _, _)
        | Command::Store(_, _, _)
        | Command::Free(_)
        | Command::IfEq(_, _, _)
        | Command::IfNeq(_, _, _)
        | Command::Goto(_)
        | Command::Stop
        | Command::Ends(_) => true,
    }
}

pub fn picks_of(command: &Command) -> usize
    ensures { result ≡ taken_by command.now }
{
    match command {
        Command::New(_, _) | Command::IfAny(_) => 1,
        Command::Assign(_, _)
        | Command::Load(_, _, _)
        | Command::Store(_, _, _)
        | Command::Free(_)
        | Command::IfEq(_, _, _)
        | Command::IfNeq(_, _, _)
        | Command::Goto(_)
        | Command::Stop
        | Command::Ends(_) => 0,
    }
}

pub fn address_of(picks: &[Pick], used: usize) -> u64
    ensures { result ≡ address_in (slice_get picks.now used) }
{
    match picks.get(used) {
        Some(Pick::Cell(address, _)) => *address,
        Some(Pick::Jumps(true)) => 1,
        Some(Pick::Jumps(false)) | None => 0,
    }
}

pub fn fields_of(picks: &[Pick], used: usize) -> &[u64]
    ensures { result.now ≡ fields_in (slice_get picks.now used) }
{
    match picks.get(used) {
        Some(Pick::Cell(_, fields)) => fields.as_slice(),
        Some(Pick::Jumps(_)) | None => &[],
    }
}

/// One step, which takes the pick at a place.
pub fn next_step(
    alloc: Global,
    program: &Program,
    config: &Config,
    w: u64,
    picks: &[Pick],
    used: usize,
) -> Result<Move, OutOfMemory>
    requires { IsStateOf program.now (state_of config.now) }
    ensures { IfOk result (IsMove program.now w (slice_get picks.now used) (state_of config.now)) }
{
    if config.greatest() > u64::MAX - w {
        return Ok(Move::None(Cause::TooGreat));
    }
    if !suits(program.command(config.line), picks, used) {
        return Ok(Move::None(Cause::NoPick));
    }
    match step(
        alloc,
        program,
        config,
        w,
        address_of(picks, used),
        fields_of(picks, used),
    )? {
        Stepped::Stop => Ok(Move::None(Cause::Stop)),
        Stepped::Fault => Ok(Move::None(Cause::Fault)),
        Stepped::BadPick => Ok(Move::None(Cause::BadPick)),
        Stepped::To(next) => Ok(Move::To(next)),
    }
}

/// Runs the program from a state for at most so many steps, under headroom w; at `new` and at `if *` it takes the next
/// of the picks. Each answer comes exactly where the run ends so. The caller has a state of the program, as
/// `is_state_of` tests; `headroom` gives a headroom that allows the numbers of the picks.
pub fn run(
    alloc: Global,
    program: &Program,
    start: &Config,
    w: u64,
    picks: &[Pick],
    steps: u64,
) -> Result<RunEnd, OutOfMemory>
    requires { IsStateOf program.now (state_of start.now) }
    ensures answer { IfOk result (λ r. (q : RunEnd)
        → (r ≡ q) ↔ IsRunEnd program.now w picks.now steps (state_of start.now) q) }
{
    let mut current = start.clone()?;
    let mut used = 0;
    for done in 0..steps {
        let taken = picks_of(program.command(current.line));
        match next_step(alloc, program, &current, w, picks, used)? {
            Move::None(cause) => return Ok(RunEnd::Ends(done, cause)),
            Move::To(next) => current = next,
        }
        used += taken;
    }
    Ok(RunEnd::Reached(current))
}
