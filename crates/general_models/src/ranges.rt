// The values over which those locals range that a heap does not determine.
ghost use Rattle.std.specs.Prelude.{◌≡◌, ◌+◌, ◌<◌, ◌≤◌, ◌^◌, List, ℕ, Some, IfOk, OnOk, vec_len};
ghost use Rattle.heap_formula.specs.Words.{Each, max_of};
ghost use Rattle.cyc_basics.specs.Words.{IsMember};
ghost use Rattle.general_models.specs.Ranges.{Occur, IsRange, HasFewVariables, HaveFewVariables, Takes, TakesAll};
ghost use Rattle.general_models.specs.Ranges.{TakesCell, TakesCells, IsRangeFor};

use crate::faults::CheckFault;
use cyc_basics::memory::OutOfMemory;
use goto_lang::Cells;
use heap_formula::{Def, Heap, bound_of_heap, exists_in_heap};
use indexmap::IndexSet;
use std::alloc::Global;

fn most_of_cases(cases: &[Heap], least: u32) -> u32
    requires { least ≤ 131072 }
    ensures least { least ≤ result }
    ensures fits { result ≤ 131072 }
    ensures cases { Each (HasFewVariables result) cases.now }
{
    let mut most = least;
    for case in cases {
        most = most.max(bound_of_heap(case) + exists_in_heap(case));
    }
    most
}

/// The most variables that a case has, parameters and locals, or the least if that is more.
pub fn most_variables(defs: &[Def], least: u32) -> u32
    requires { least ≤ 131072 }
    ensures least { least ≤ result }
    ensures fits { result ≤ 131072 }
    ensures cases { HaveFewVariables result defs.now }
{
    let mut most = least;
    for def in defs {
        most = most_of_cases(def.cases.heaps(), most);
    }
    most
}

fn take(numbers: &mut IndexSet<u64>, number: u64) -> Result<(), OutOfMemory>
    ensures { OnOk result (Takes numbers.old.keys numbers.new.keys number) }
{
    numbers.insert(number)?;
    Ok(())
}

fn take_all(numbers: &mut IndexSet<u64>, values: &[u64]) -> Result<(), OutOfMemory>
    ensures { OnOk result (TakesAll numbers.old.keys numbers.new.keys values.now) }
{
    for value in values {
        take(numbers, *value)?;
    }
    Ok(())
}

/// Takes an address, and the fields of the cell that stands there.
fn take_cell(numbers: &mut IndexSet<u64>, cells: &Cells, address: u64) -> Result<(), OutOfMemory>
    ensures { OnOk result (TakesCell cells.now numbers.old.keys numbers.new.keys address) }
{
    take(numbers, address)?;
    match cells.get(address) {
        None => Ok(()),
        Some(fields) => take_all(numbers, fields),
    }
}

fn take_cells(
    numbers: &mut IndexSet<u64>,
    cells: &Cells,
    addresses: &[u64],
) -> Result<(), OutOfMemory>
    ensures { OnOk result (TakesCells cells.now numbers.old.keys numbers.new.keys addresses.now) }
{
    for address in addresses {
        take_cell(numbers, cells, *address)?;
    }
    Ok(())
}

/// The numbers that occur: nil, the values of the stack, and the addresses and fields of the heap.
fn numbers_in(alloc: Global, stack: &[u64], cells: &Cells) -> Result<IndexSet<u64>, OutOfMemory>
    ensures occur { IfOk result (λ numbers. Occur cells.now numbers.keys) }
    ensures stack { IfOk result (λ numbers. Each (λ v. IsMember v numbers.keys) stack.now) }
{
    let addresses = cells.addresses(alloc)?;
    let mut numbers = IndexSet::new(alloc);
    take(&mut numbers, 0)?;
    take_all(&mut numbers, stack)?;
    take_cells(&mut numbers, cells, &addresses)?;
    Ok(numbers)
}

fn greatest_of(numbers: &[u64]) -> u64
    ensures { result ≡ max_of numbers.now }
{
    let mut most = 0;
    for number in numbers {
        most = most.max(*number);
    }
    most
}

/// The numbers, and so many fresh ones from a base on.
fn with_fresh(
    alloc: Global,
    numbers: &[u64],
    base: u64,
    fresh: u32,
) -> Result<Vec<u64>, OutOfMemory>
    requires below { Each (λ v. v < base) numbers.now }
    requires fits { base + fresh < 2 ^ 64 }
    ensures { IfOk result (λ v. IsRange v.items numbers.now base fresh) }
{
    let mut range = numbers.to_vec(alloc)?;
    for i in 0..fresh {
        range.push(base + i as u64)?;
    }
    Ok(range)
}

/// The values over which locals range: nil, those of the stack and the heap, and so many fresh ones.
pub fn range_of(
    alloc: Global,
    stack: &[u64],
    cells: &Cells,
    fresh: u32,
) -> Result<Vec<u64>, CheckFault>
    ensures { IfOk result (λ range. IsRangeFor stack.now cells.now fresh range.items) }
{
    let numbers = numbers_in(alloc, stack, cells)?;
    let most = greatest_of(numbers.as_slice());
    if most >= u64::MAX - fresh as u64 {
        return Err(CheckFault::TooMuch);
    }
    let range = with_fresh(alloc, numbers.as_slice(), most + 1, fresh)?;
    Ok(range)
}
