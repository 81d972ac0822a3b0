// Heaps, cell by cell, up to an address.
ghost use Rattle.std.specs.Prelude.{◌≡◌, ◌≢◌, ◌≤◌, ◌<◌, ◌↔◌, ℕ, List, IsTrue, IfOk, OnOk, Some};
ghost use Rattle.std.specs.Option.{is_some, option_or};
ghost use Rattle.heap_formula.specs.Cells.{Cells as Heaps, cell_at};
ghost use Rattle.counter_model.specs.Bounds.{AreAtMost, SameUpTo, Unites};

use cyc_basics::memory::OutOfMemory;
use goto_lang::Cells;
use std::alloc::Global;

fn has_cell(cells: &Cells, address: u64) -> bool
    ensures { result ≡ is_some (cell_at cells.now address) }
{
    cells.get(address).is_some()
}

/// Whether no address up to the greatest has a cell in both heaps.
pub fn are_apart(greatest: u32, part: &Cells, rest: &Cells) -> bool
    ensures { (h : Heaps) → Unites greatest part.now rest.now h → IsTrue result }
{
    for address in 0..greatest as u64 + 1 {
        if has_cell(part, address) && has_cell(rest, address) {
            return false;
        }
    }
    true
}

/// Copies the cell at an address, if there is one.
fn copy_cell(alloc: Global, from: &Cells, to: &mut Cells, address: u64) -> Result<(), OutOfMemory>
    ensures at { OnOk result (cell_at to.new address ≡ option_or (cell_at from.now address) (cell_at to.old address)) }
    ensures others { OnOk result ((a : ℕ) → a ≢ address → cell_at to.new a ≡ cell_at to.old a) }
{
    match from.get(address) {
        None => Ok(()),
        Some(fields) => {
            let fields = Vec::from_slice(alloc, fields)?;
            to.put(address, fields)?;
            Ok(())
        }
    }
}

/// A copy of a heap with the cells of another up to the greatest address.
pub fn with_cells(
    alloc: Global,
    greatest: u32,
    part: &Cells,
    rest: &Cells,
) -> Result<Cells, OutOfMemory>
    ensures below { IfOk result (λ h. (a : ℕ) → a ≤ greatest
        → cell_at h a ≡ option_or (cell_at rest.now a) (cell_at part.now a)) }
    ensures above { IfOk result (λ h. (a : ℕ) → greatest < a → cell_at h a ≡ cell_at part.now a) }
{
    let mut whole = part.clone()?;
    for address in 0..greatest as u64 + 1 {
        copy_cell(alloc, rest, &mut whole, address)?;
    }
    Ok(whole)
}

fn same_fields(a: &[u64], b: &[u64]) -> bool
    ensures { IsTrue result ↔ (a.now ≡ b.now) }
{
    *a == *b
}

fn has_fields(cells: &Cells, address: u64, fields: &[u64]) -> bool
    ensures { IsTrue result ↔ (cell_at cells.now address ≡ Some fields.now) }
{
    match cells.get(address) {
        None => false,
        Some(found) => same_fields(found, fields),
    }
}

fn has_same_cell(x: &Cells, y: &Cells, address: u64) -> bool
    ensures { IsTrue result ↔ (cell_at x.now address ≡ cell_at y.now address) }
{
    match x.get(address) {
        None => y.get(address).is_none(),
        Some(fields) => has_fields(y, address, fields),
    }
}

/// Whether two heaps have the same cells up to the greatest address.
pub fn is_same(greatest: u32, x: &Cells, y: &Cells) -> bool
    ensures { IsTrue result ↔ SameUpTo greatest x.now y.now }
{
    for address in 0..greatest as u64 + 1 {
        if !has_same_cell(x, y, address) {
            return false;
        }
    }
    true
}

fn are_at_most(greatest: u32, values: &[u64]) -> bool
    ensures { IsTrue result ↔ AreAtMost greatest values.now }
{
    for value in values {
        if *value > greatest as u64 {
            return false;
        }
    }
    true
}

fn has_small_cell(greatest: u32, heap: &Cells, address: u64) -> bool
    ensures { IsTrue result ↔ ((vs : List ℕ) → cell_at heap.now address ≡ Some vs → AreAtMost greatest vs) }
{
    match heap.get(address) {
        None => true,
        Some(fields) => are_at_most(greatest, fields),
    }
}

/// Whether the fields of the cells up to the greatest address are not above it.
pub fn has_small_fields(greatest: u32, heap: &Cells) -> bool
    ensures { IsTrue result ↔ ((a : ℕ) (vs : List ℕ) → a ≤ greatest → cell_at heap.now a ≡ Some vs
        → AreAtMost greatest vs) }
{
    for address in 0..greatest as u64 + 1 {
        if !has_small_cell(greatest, heap, address) {
            return false;
        }
    }
    true
}
