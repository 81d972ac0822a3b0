// Whether a stack and a heap may stand in a model file.
ghost use Rattle.std.specs.Prelude.{IsTrue, IfOk};
ghost use Rattle.heap_formula.specs.Words.{Each};
ghost use Rattle.model_file.specs.Small.{IsShortNumber};
ghost use Rattle.counter_model.specs.States.{HasPlainCell, IsPlainState};

use cyc_basics::limits::{Limits, MOST_VALUES};
use cyc_basics::memory::OutOfMemory;
use goto_lang::{Cells, Stack};
use std::alloc::Global;

/// Whether the number has at most nine digits.
fn is_short(number: u64) -> bool
    ensures { IsTrue result → IsShortNumber number }
{
    number < 1_000_000_000
}

fn are_short(numbers: &[u64]) -> bool
    ensures { IsTrue result → Each IsShortNumber numbers.now }
{
    for number in numbers {
        if !is_short(*number) {
            return false;
        }
    }
    true
}

/// Whether the cell at an address, if there is one, may stand in a model file within these limits.
fn is_plain(most: Limits, heap: &Cells, address: u64) -> bool
    ensures { IsTrue result → HasPlainCell most heap.now address }
{
    match heap.get(address) {
        None => true,
        Some(fields) => {
            address > 0
                && is_short(address)
                && !fields.is_empty()
                && fields.len() <= most.arguments as usize
                && are_short(fields)
        }
    }
}

fn are_plain(most: Limits, heap: &Cells, addresses: &[u64]) -> bool
    ensures { IsTrue result → Each (HasPlainCell most heap.now) addresses.now }
{
    for address in addresses {
        if !is_plain(most, heap, *address) {
            return false;
        }
    }
    true
}

/// Whether the stack and the heap may stand in a model file within these limits.
pub fn is_plain_state(
    alloc: Global,
    most: Limits,
    stack: &Stack,
    heap: &Cells,
) -> Result<bool, OutOfMemory>
    ensures { IfOk result (λ yes. IsTrue yes → IsPlainState most stack.now heap.now) }
{
    let values = stack.as_slice();
    if values.len() > MOST_VALUES || !are_short(values) {
        return Ok(false);
    }
    let addresses = heap.addresses(alloc)?;
    if addresses.len() > most.cells as usize {
        return Ok(false);
    }
    Ok(are_plain(most, heap, &addresses))
}
