// Whether a run file has room for a run.
ghost use Rattle.std.specs.Prelude.{◌≡◌, ◌&&◌, IfOk};
ghost use Rattle.std.specs.List.{list_all};
ghost use Rattle.heap_formula.specs.Cells.{cell_at};
ghost use Rattle.run_file.specs.Limits.{is_short_number, are_short_numbers, are_fields, is_short_cell, is_short_pick};
ghost use Rattle.run_file.specs.Limits.{is_short_pair, are_short_pairs, is_short_outcome, is_short_stack, is_short_heap};
ghost use Rattle.run_file.specs.Limits.{is_short_run};
ghost use Rattle.run_file.specs.Places.{is_short_place};

use crate::Outcome;
use crate::read_runs::has_breaks;
use cyc_basics::limits::{Limits, MOST_VALUES};
use cyc_basics::memory::OutOfMemory;
use general_models::runs::{Pick, ValuePair};
use goto_lang::Cells;
use model_file::ModelVersion;
use std::alloc::Global;

fn is_short_number(number: u64) -> bool
    ensures { result ≡ is_short_number number }
{
    number < 1_000_000_000
}

fn are_short_numbers(numbers: &[u64]) -> bool
    ensures { result ≡ are_short_numbers numbers.now }
{
    numbers.iter().all(|number| is_short_number(*number))
}

fn is_short_stack(values: &[u64]) -> bool
    ensures { result ≡ is_short_stack values.now }
{
    values.len() <= MOST_VALUES && are_short_numbers(values)
}

fn is_short_cell(most: Limits, address: u64, fields: &[u64]) -> bool
    ensures { result ≡ is_short_cell most address fields.now }
{
    is_short_number(address)
        && !fields.is_empty()
        && fields.len() <= most.arguments as usize
        && are_short_numbers(fields)
}

/// Whether what stands at the address is short.
fn is_short_place(most: Limits, heap: &Cells, address: u64) -> bool
    ensures { result ≡ is_short_place most (cell_at heap.now address) address }
{
    match heap.get(address) {
        None => true,
        Some(fields) => is_short_cell(most, address, fields),
    }
}

fn are_short_places(most: Limits, heap: &Cells, addresses: &[u64]) -> bool
    ensures { result ≡ list_all (λ a. is_short_place most (cell_at heap.now a) a) addresses.now }
{
    addresses
        .iter()
        .all(|address| is_short_place(most, heap, *address))
}

fn is_short_heap(alloc: Global, most: Limits, heap: &Cells) -> Result<bool, OutOfMemory>
    ensures { IfOk result (λ b. b ≡ is_short_heap most heap.now) }
{
    if heap.len() > most.cells as usize {
        return Ok(false);
    }
    let addresses = heap.addresses(alloc)?;
    Ok(are_short_places(most, heap, &addresses))
}

fn is_short_pick(most: Limits, pick: &Pick) -> bool
    ensures { result ≡ is_short_pick most pick.now }
{
    match pick {
        Pick::Cell(address, fields) => is_short_cell(most, *address, fields.as_slice()),
        Pick::Jumps(_) => true,
    }
}

fn are_short_picks(most: Limits, picks: &[Pick]) -> bool
    ensures { result ≡ list_all (is_short_pick most) picks.now }
{
    picks.iter().all(|pick| is_short_pick(most, pick))
}

fn are_both_short(first: u32, second: u32) -> bool
    ensures { result ≡ (is_short_number first && is_short_number second) }
{
    is_short_number(u64::from(first)) && is_short_number(u64::from(second))
}

fn are_all_short(pairs: &[ValuePair]) -> bool
    ensures { result ≡ list_all is_short_pair pairs.now }
{
    pairs
        .iter()
        .all(|pair| are_both_short(pair.before, pair.after))
}

fn are_short_pairs(pairs: &[ValuePair]) -> bool
    ensures { result ≡ are_short_pairs pairs.now }
{
    !pairs.is_empty() && are_all_short(pairs)
}

fn is_short_outcome(version: ModelVersion, outcome: &Outcome) -> bool
    ensures { result ≡ is_short_outcome version outcome.now }
{
    match outcome {
        Outcome::Faults { line, step } => are_both_short(*line, *step),
        Outcome::Repeats { first, again } => are_both_short(*first, *again),
        Outcome::Grows(growth) => {
            are_both_short(growth.first, growth.again)
                && are_short_pairs(growth.renaming.as_slice())
        }
        Outcome::Breaks { step } => has_breaks(version) && is_short_number(u64::from(*step)),
    }
}

/// Whether a run file of the version may have the stack, the heap, the picks and the outcome.
pub fn is_short_run(
    alloc: Global,
    version: ModelVersion,
    stack: &[u64],
    heap: &Cells,
    picks: &[Pick],
    outcome: &Outcome,
) -> Result<bool, OutOfMemory>
    ensures { IfOk result (λ b. b ≡ is_short_run version stack.now heap.now picks.now outcome.now) }
{
    let most = version.limits();
    let is_short = is_short_heap(alloc, most, heap)?;
    Ok(
        is_short_stack(stack)
            && is_short
            && are_short_picks(most, picks)
            && is_short_outcome(version, outcome),
    )
}
