// A formula at given values: its pure atoms, its cells, and its predicate atoms.
ghost use Rattle.std.specs.Prelude.{◌↔◌, ◌≡◌, ◌++◌, reverse, IfOk, OnOk, IsTrue};
ghost use Rattle.heap_formula.specs.Cells.{Cells};
ghost use Rattle.general_models.specs.Derivations.{atom_of, atoms_of, Opens};

use crate::derivations::taking::take_cells;
use crate::derivations::terms::{pures_hold, values_of};
use cyc_basics::memory::OutOfMemory;
use goto_lang::Cells;
use heap_formula::{Heap, Spatial};
use model_check::Question;
use std::alloc::Global;

fn push_atom(
    alloc: Global,
    pending: &mut Vec<Question>,
    stack: &[u64],
    locals: &[u64],
    atom: &Spatial,
) -> Result<(), OutOfMemory>
    ensures { OnOk result (pending.new.items ≡ pending.old.items ++ atom_of stack.now locals.now atom.now) }
{
    match atom {
        Spatial::Cell(_, _) => Ok(()),
        Spatial::Pred(predicate, args) => {
            let values = values_of(alloc, stack, locals, args.as_slice())?;
            pending.push(Question::new(*predicate, values))?;
            Ok(())
        }
    }
}

/// Puts the predicate atoms of a list on top, the first one topmost.
fn push_atoms(
    alloc: Global,
    pending: &mut Vec<Question>,
    stack: &[u64],
    locals: &[u64],
    atoms: &[Spatial],
) -> Result<(), OutOfMemory>
    ensures { OnOk result (reverse pending.new.items
        ≡ atoms_of stack.now locals.now atoms.now ++ reverse pending.old.items) }
{
    for place in (0..atoms.len()).rev() {
        push_atom(alloc, pending, stack, locals, &atoms[place])?;
    }
    Ok(())
}

/// Tests the pure atoms, takes the cells away and puts the predicate atoms on top; false where a pure atom does not
/// hold or a cell is not there.
pub fn open(
    alloc: Global,
    pending: &mut Vec<Question>,
    left: &mut Cells,
    stack: &[u64],
    locals: &[u64],
    formula: &Heap,
) -> Result<bool, OutOfMemory>
    ensures opens { IfOk result (λ b. (g : Cells) → Opens stack.now locals.now formula.now left.old g
        ↔ (IsTrue b × (g ≡ left.new))) }
    ensures pending { IfOk result (λ b. IsTrue b → reverse pending.new.items
        ≡ atoms_of stack.now locals.now formula.now.spatial ++ reverse pending.old.items) }
{
    if !pures_hold(stack, locals, formula.pure()) {
        return Ok(false);
    }
    if !take_cells(alloc, left, stack, locals, formula.spatial())? {
        return Ok(false);
    }
    push_atoms(alloc, pending, stack, locals, formula.spatial())?;
    Ok(true)
}
