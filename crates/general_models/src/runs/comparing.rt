// Whether two states are one.
ghost use Rattle.std.specs.Prelude.{◌≡◌, ◌↔◌, IsTrue, IfOk};
ghost use Rattle.heap_formula.specs.Words.{Each};
ghost use Rattle.heap_formula.specs.Cells.{cell_at};
ghost use Rattle.goto_lang.specs.States.{state_of};

use cyc_basics::memory::OutOfMemory;
use goto_lang::{Cells, Config};
use std::alloc::Global;

fn same_values(a: &[u64], b: &[u64]) -> bool
    ensures { IsTrue result ↔ (a.now ≡ b.now) }
{
    *a == *b
}

/// Whether the same stands at an address in two heaps.
fn agree_at(a: &Cells, b: &Cells, address: u64) -> bool
    ensures { IsTrue result ↔ (cell_at a.now address ≡ cell_at b.now address) }
{
    match a.get(address) {
        None => b.get(address).is_none(),
        Some(fields) => match b.get(address) {
            None => false,
            Some(others) => same_values(fields, others),
        },
    }
}

fn agree_at_all(a: &Cells, b: &Cells, addresses: &[u64]) -> bool
    ensures { IsTrue result ↔ Each (λ x. cell_at a.now x ≡ cell_at b.now x) addresses.now }
{
    for address in addresses {
        if !agree_at(a, b, *address) {
            return false;
        }
    }
    true
}

fn same_heaps(alloc: Global, a: &Cells, b: &Cells) -> Result<bool, OutOfMemory>
    ensures { IfOk result (λ same. IsTrue same ↔ (a.now ≡ b.now)) }
{
    let of_a = a.addresses(alloc)?;
    let of_b = b.addresses(alloc)?;
    let at_first = agree_at_all(a, b, &of_a);
    let at_second = agree_at_all(a, b, &of_b);
    if !at_first {
        return Ok(false);
    }
    Ok(at_second)
}

/// Whether two states have the same line, stack and heap.
pub fn same_states(alloc: Global, a: &Config, b: &Config) -> Result<bool, OutOfMemory>
    ensures { IfOk result (λ same. IsTrue same ↔ (state_of a.now ≡ state_of b.now)) }
{
    if a.line != b.line {
        return Ok(false);
    }
    if !same_values(a.stack.as_slice(), b.stack.as_slice()) {
        return Ok(false);
    }
    same_heaps(alloc, &a.heap, &b.heap)
}
