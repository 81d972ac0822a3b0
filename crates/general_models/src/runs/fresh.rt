// Runs whose new cells are fresh.
ghost use Rattle.std.specs.Prelude.{◌↔◌, ◌≤◌, IsTrue, IfOk, slice_get};
ghost use Rattle.cyc_basics.specs.Words.{IsMember};
ghost use Rattle.heap_formula.specs.Words.{Each};
ghost use Rattle.goto_lang.specs.States.{state_of, IsStateOf};
ghost use Rattle.general_models.specs.Picks.{address_of as address_in, fields_of as fields_in};
ghost use Rattle.general_models.specs.Growing.{IsAtHand, TakesFresh, IsFreshState};

use crate::runs::picks::Pick;
use crate::runs::running::{Move, address_of, fields_of, next_step, picks_of};
use cyc_basics::memory::OutOfMemory;
use goto_lang::{Config, Program};
use heap_formula::Command;
use std::alloc::Global;

fn is_among(values: &[u64], value: u64) -> bool
    ensures { IsTrue result ↔ IsMember value values.now }
{
    for other in values {
        if *other == value {
            return true;
        }
    }
    false
}

fn is_at_hand(address: u64, stack: &[u64], value: u64) -> bool
    ensures { IsTrue result ↔ IsAtHand address stack.now value }
{
    if value == 0 || value == address {
        return true;
    }
    is_among(stack, value)
}

fn are_at_hand(address: u64, stack: &[u64], values: &[u64]) -> bool
    ensures { IsTrue result ↔ Each (IsAtHand address stack.now) values.now }
{
    for value in values {
        if !is_at_hand(address, stack, *value) {
            return false;
        }
    }
    true
}

/// Whether the command takes no cell with the pick at this place, or a fresh one.
fn takes_fresh(command: &Command, config: &Config, picks: &[Pick], used: usize) -> bool
    ensures { IsTrue result ↔ TakesFresh command.now (address_in (slice_get picks.now used))
        (fields_in (slice_get picks.now used)) (state_of config.now) }
{
    match command {
        Command::New(_, _) => {
            let address = address_of(picks, used);
            config.greatest() < address
                && are_at_hand(address, config.stack.as_slice(), fields_of(picks, used))
        }
        Command::IfAny(_)
        | Command::Assign(_, _)
        | Command::Load(_, _, _)
        | Command::Store(_, _, _)
        | Command::Free(_)
        | Command::IfEq(_, _, _)
        | Command::IfNeq(_, _, _)
        | Command::Goto(_)
        | Command::Stop
        | Command::Ends(_) => true,
    }
}

/// The same, if at least so many steps are done.
fn is_fresh_from(
    first: u32,
    done: u32,
    command: &Command,
    config: &Config,
    picks: &[Pick],
    used: usize,
) -> bool
    ensures { IsTrue result ↔ (first ≤ done → TakesFresh command.now (address_in (slice_get picks.now used))
        (fields_in (slice_get picks.now used)) (state_of config.now)) }
{
    done < first || takes_fresh(command, config, picks, used)
}

/// The state after so many steps, if the run makes them and each `new` after the first ones takes a fresh cell.
pub fn fresh_state_after(
    alloc: Global,
    program: &Program,
    start: &Config,
    w: u64,
    picks: &[Pick],
    first: u32,
    steps: u32,
) -> Result<Option<Config>, OutOfMemory>
    requires { IsStateOf program.now (state_of start.now) }
    ensures { IfOk result (IsFreshState program.now w picks.now first steps (state_of start.now)) }
{
    let mut current = start.clone()?;
    let mut used = 0;
    for done in 0..steps {
        let command = program.command(current.line);
        if !is_fresh_from(first, done, command, &current, picks, used) {
            return Ok(None);
        }
        match next_step(alloc, program, &current, w, picks, used)? {
            Move::None(_) => return Ok(None),
            Move::To(next) => current = next,
        }
        used += picks_of(command);
    }
    Ok(Some(current))
}
