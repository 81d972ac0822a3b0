// One step of a program.
ghost use Rattle.std.specs.Prelude.{◌≡◌, ◌+◌, ◌-◌, ◌^◌, ◌<◌, ◌≤◌, ◌↔◌, ℕ, length, IsTrue, IfOk, Some, None};
ghost use Rattle.std.specs.Prelude.{if◌then◌else◌, slice_set};
ghost use Rattle.std.specs.FinMap.{insert, remove};
ghost use Rattle.heap_formula.specs.declared.commands.Command.TheVariants.{New as NewCell};
ghost use Rattle.heap_formula.specs.Words.{Each};
ghost use Rattle.heap_formula.specs.Programs.{counted_from_one, field_at, command_bound, greatest, next_line, jump};
ghost use Rattle.heap_formula.specs.Programs.{MayPick};
ghost use Rattle.goto_lang.specs.declared.configs.Config.{Config};
ghost use Rattle.goto_lang.specs.States.{state_of, IsStateOf};
ghost use Rattle.goto_lang.specs.Steps.{MayTake, IsStep};
ghost use Rattle.goto_lang.specs.Effects.{Makes, IsLoad, IsStore, IsFree, IsJump};

use crate::cells::Cells;
use crate::configs::Config;
use crate::programs::Program;
use cyc_basics::memory::OutOfMemory;
use heap_formula::Command;
use std::alloc::Global;

/// What a step comes to: the run is at `stop`; the command reads, writes or frees what is not there; the next state; or
/// the command is `new` and what it is to take is not allowed, or `if *` and the pick is above 1.
#[derive(Drop)]
pub enum Stepped {
    Stop,
    Fault,
    To(Config),
    BadPick,
}

fn field(fields: &[u64], k: u8) -> Option<u64>
    ensures { result ≡ counted_from_one fields.now k }
{
    if k == 0 {
        None
    } else {
        fields.get(k as usize - 1).copied()
    }
}

fn field_in(heap: &Cells, address: u64, k: u8) -> Option<u64>
    ensures { result ≡ field_at heap.now address k }
{
    match heap.get(address) {
        Some(fields) => field(fields, k),
        None => None,
    }
}

/// The state at a line with the same stack and heap.
fn at_line(config: &Config, line: u32) -> Result<Config, OutOfMemory>
    ensures { IfOk result (λ d. state_of d ≡ jump (state_of config.now) line) }
{
    let mut next = config.clone()?;
    next.line = line;
    Ok(next)
}

/// The state on the next line with a new value of a variable.
fn assigned(config: &Config, x: u16, value: u64) -> Result<Config, OutOfMemory>
    requires variable { x < length config.now.stack }
    requires line { config.now.line < 2 ^ 32 - 1 }
    ensures { IfOk result (λ d. state_of d
        ≡ next_line (state_of config.now) (slice_set config.now.stack x value) config.now.heap) }
{
    let mut next = config.clone()?;
    next.stack.set(x, value);
    next.line += 1;
    Ok(next)
}

fn with_field(alloc: Global, fields: &[u64], k: u8, value: u64) -> Result<Vec<u64>, OutOfMemory>
    requires from_one { 0 < k }
    requires to_last { k ≤ length fields.now }
    ensures { IfOk result (λ v. v.items ≡ slice_set fields.now (k - 1) value) }
{
    let mut copy = fields.to_vec(alloc)?;
    copy[k as usize - 1] = value;
    Ok(copy)
}

/// The state on the next line with other fields of a cell.
fn with_cell(config: &Config, address: u64, fields: Vec<u64>) -> Result<Config, OutOfMemory>
    requires positive { 0 < address }
    requires some { 0 < length fields.items }
    requires line { config.now.line < 2 ^ 32 - 1 }
    ensures { IfOk result (λ d. state_of d
        ≡ next_line (state_of config.now) config.now.stack (insert config.now.heap address fields.items)) }
{
    let mut next = config.clone()?;
    next.heap.put(address, fields)?;
    next.line += 1;
    Ok(next)
}

fn stored(
    alloc: Global,
    config: &Config,
    address: u64,
    k: u8,
    value: u64,
) -> Result<Stepped, OutOfMemory>
    requires line { config.now.line < 2 ^ 32 - 1 }
    ensures { IfOk result (λ r. IsStore address k value (state_of config.now) r) }
{
    let Some(fields) = config.heap.get(address) else {
        return Ok(Stepped::Fault);
    };
    if k == 0 || k as usize > fields.len() {
        return Ok(Stepped::Fault);
    }
    let fields = with_field(alloc, fields, k, value)?;
    Ok(Stepped::To(with_cell(config, address, fields)?))
}

fn loaded(config: &Config, x: u16, address: u64, k: u8) -> Result<Stepped, OutOfMemory>
    requires variable { x < length config.now.stack }
    requires line { config.now.line < 2 ^ 32 - 1 }
    ensures { IfOk result (λ r. IsLoad x address k (state_of config.now) r) }
{
    match field_in(&config.heap, address, k) {
        Some(value) => Ok(Stepped::To(assigned(config, x, value)?)),
        None => Ok(Stepped::Fault),
    }
}

fn allocated(
    alloc: Global,
    config: &Config,
    x: u16,
    pick: u64,
    fill: &[u64],
) -> Result<Config, OutOfMemory>
    requires variable { x < length config.now.stack }
    requires positive { 0 < pick }
    requires some { 0 < length fill.now }
    requires line { config.now.line < 2 ^ 32 - 1 }
    ensures { IfOk result (λ d. state_of d
        ≡ next_line (state_of config.now) (slice_set config.now.stack x pick) (insert config.now.heap pick fill.now)) }
{
    let mut next = config.clone()?;
    next.heap.put(pick, fill.to_vec(alloc)?)?;
    next.stack.set(x, pick);
    next.line += 1;
    Ok(next)
}

fn freed(config: &Config, address: u64) -> Result<Stepped, OutOfMemory>
    requires line { config.now.line < 2 ^ 32 - 1 }
    ensures { IfOk result (λ r. IsFree address (state_of config.now) r) }
{
    if config.heap.get(address).is_none() {
        return Ok(Stepped::Fault);
    }
    let mut next = config.clone()?;
    next.heap.remove(address);
    next.line += 1;
    Ok(Stepped::To(next))
}

fn branch(config: &Config, holds: bool, line: u32) -> Result<Stepped, OutOfMemory>
    requires line { config.now.line < 2 ^ 32 - 1 }
    ensures { IfOk result (λ r. IsJump (if holds then line else config.now.line + 1) (state_of config.now) r) }
{
    let next = if holds { line } else { config.line + 1 };
    Ok(Stepped::To(at_line(config, next)?))
}

/// What a command makes of a state, where `new` may take this address and these values, and `if *` this pick.
pub(crate) fn perform(
    alloc: Global,
    command: &Command,
    config: &Config,
    pick: u64,
    fill: &[u64],
) -> Result<Stepped, OutOfMemory>
    requires variables { command_bound command.now ≤ length config.now.stack }
    requires line { config.now.line < 2 ^ 32 - 1 }
    requires new_cell { (x k : ℕ) → command.now ≡ NewCell x k → (0 < pick) × (0 < length fill.now) }
    ensures { IfOk result (λ r. Makes command.now pick fill.now (state_of config.now) r) }
{
    match command {
        Command::Assign(x, t) => Ok(Stepped::To(assigned(config, *x, config.value(*t))?)),
        Command::Load(x, t, k) => loaded(config, *x, config.value(*t), *k),
        Command::Store(t, k, u) => stored(alloc, config, config.value(*t), *k, config.value(*u)),
        Command::New(x, _) => Ok(Stepped::To(allocated(alloc, config, *x, pick, fill)?)),
        Command::Free(t) => freed(config, config.value(*t)),
        Command::IfEq(t, u, j) => branch(config, config.value(*t) == config.value(*u), *j),
        Command::IfNeq(t, u, j) => branch(config, config.value(*t) != config.value(*u), *j),
        Command::IfAny(j) => branch(config, pick == 1, *j),
        Command::Goto(j) => Ok(Stepped::To(at_line(config, *j)?)),
        Command::Stop | Command::Ends(_) => Ok(Stepped::Stop),
    }
}

fn all_within(values: &[u64], most: u64) -> bool
    ensures { IsTrue result ↔ Each (λ v. v ≤ most) values.now }
{
    for value in values {
        if *value > most {
            return false;
        }
    }
    true
}

fn may_pick(config: &Config, w: u64, k: u8, pick: u64, fill: &[u64]) -> bool
    requires { greatest (state_of config.now) + w < 2 ^ 64 }
    ensures { IsTrue result ↔ MayPick w (state_of config.now) k pick fill.now }
{
    let most = config.greatest() + w;
    pick > 0
        && pick <= most
        && config.heap.get(pick).is_none()
        && fill.len() == k as usize
        && all_within(fill, most)
}

fn may_take(command: &Command, config: &Config, w: u64, pick: u64, fill: &[u64]) -> bool
    requires { greatest (state_of config.now) + w < 2 ^ 64 }
    ensures { IsTrue result ↔ MayTake command.now w pick fill.now (state_of config.now) }
{
    match command {
        Command::New(_, k) => may_pick(config, w, *k, pick, fill),
        Command::IfAny(_) => pick <= 1,
        Command::Assign(_, _)
        | Command::Load(_, _, _)
        | Command::Store(_, _, _)
        | Command::Free(_)
        | Command::IfEq(_, _, _)
        | Command::IfNeq(_, _, _)
        | Command::Goto(_)
        | Command::Stop
        | Command::Ends(_) => true,
    }
}

/// One step of the program under headroom w, in which `new` takes the address `pick` and the values `fill`, and `if *`
/// jumps at the pick 1 and goes to the next line at the pick 0: each answer comes exactly where the definition of a
/// step says so. The caller has a state of the program, as `is_state_of` tests, and a headroom that fits, as `greatest`
/// tells.
pub fn step(
    alloc: Global,
    program: &Program,
    config: &Config,
    w: u64,
    pick: u64,
    fill: &[u64],
) -> Result<Stepped, OutOfMemory>
    requires state { IsStateOf program.now (state_of config.now) }
    requires headroom { greatest (state_of config.now) + w < 2 ^ 64 }
    ensures answer { IfOk result (λ r. (q : Stepped)
        → (r ≡ q) ↔ IsStep program.now w pick fill.now (state_of config.now) q) }
    ensures stays { IfOk result (λ r. (d : Config) → r ≡ Stepped.To d → IsStateOf program.now (state_of d)) }
{
    let command = program.command(config.line);
    if !may_take(command, config, w, pick, fill) {
        return Ok(Stepped::BadPick);
    }
    perform(alloc, command, config, pick, fill)
}
