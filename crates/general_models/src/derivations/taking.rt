// Cells that are taken out of a heap.
ghost use Rattle.std.specs.Prelude.{◌↔◌, ◌≡◌, IfOk, IsTrue, Some};
ghost use Rattle.heap_formula.specs.Cells.{Cells, cell_at, IsHeap};
ghost use Rattle.general_models.specs.Derivations.{Leaves, AtomLeaves, AtomsLeave};

use crate::derivations::terms::{value_of, values_of};
use cyc_basics::memory::OutOfMemory;
use goto_lang::Cells;
use heap_formula::Spatial;
use std::alloc::Global;

fn same_values(a: &[u64], b: &[u64]) -> bool
    ensures { IsTrue result ↔ (a.now ≡ b.now) }
{
    *a == *b
}

fn has_cell(heap: &Cells, address: u64, fields: &[u64]) -> bool
    ensures exact { IsTrue result ↔ (cell_at heap.now address ≡ Some fields.now) }
    ensures heap { IsHeap heap.now }
{
    match heap.get(address) {
        None => false,
        Some(found) => same_values(found, fields),
    }
}

/// Takes a cell away; false where it is not there.
fn take_cell(left: &mut Cells, address: u64, fields: &[u64]) -> bool
    ensures { (g : Cells) → Leaves address fields.now left.old g ↔ (IsTrue result × (g ≡ left.new)) }
{
    if !has_cell(left, address, fields) {
        return false;
    }
    left.remove(address);
    true
}

/// Takes the cell of an atom away, if it is one; false where that cell is not there.
fn take_atom(
    alloc: Global,
    left: &mut Cells,
    stack: &[u64],
    locals: &[u64],
    atom: &Spatial,
) -> Result<bool, OutOfMemory>
    ensures { IfOk result (λ b. (g : Cells) → AtomLeaves stack.now locals.now atom.now left.old g
        ↔ (IsTrue b × (g ≡ left.new))) }
{
    match atom {
        Spatial::Cell(address, fields) => {
            let values = values_of(alloc, stack, locals, fields.as_slice())?;
            Ok(take_cell(left, value_of(stack, locals, *address), &values))
        }
        Spatial::Pred(_, _) => Ok(true),
    }
}

/// Takes the cells of these atoms away; false where one is not there.
pub fn take_cells(
    alloc: Global,
    left: &mut Cells,
    stack: &[u64],
    locals: &[u64],
    atoms: &[Spatial],
) -> Result<bool, OutOfMemory>
    ensures { IfOk result (λ b. (g : Cells) → AtomsLeave stack.now locals.now atoms.now left.old g
        ↔ (IsTrue b × (g ≡ left.new))) }
{
    for atom in atoms {
        if !take_atom(alloc, left, stack, locals, atom)? {
            return Ok(false);
        }
    }
    Ok(true)
}
