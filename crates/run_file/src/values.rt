// Stacks, heaps and picks as values.
ghost use Rattle.std.specs.Prelude.{◌≡◌, ◌<◌, map, IfOk};
ghost use Rattle.heap_formula.specs.Words.{Each};
ghost use Rattle.model_file.specs.Trees.{cell_of};
ghost use Rattle.model_file.specs.Small.{IsSmallCell};
ghost use Rattle.model_file.specs.Values.{cells_value};
ghost use Rattle.run_file.specs.Trees.{pick_of};

use crate::tree::PickTree;
use cyc_basics::memory::OutOfMemory;
use general_models::runs::{FieldValues, Pick};
use goto_lang::Cells;
use model_file::syntax::CellTree;
use std::alloc::Global;

/// The same numbers.
pub fn wide_numbers(alloc: Global, numbers: &[u32]) -> Result<Vec<u64>, OutOfMemory>
    ensures { IfOk result (λ v. v.items ≡ numbers.now) }
{
    let mut wide = Vec::with_capacity(alloc, numbers.len())?;
    for number in numbers {
        wide.push(u64::from(*number))?;
    }
    Ok(wide)
}

/// The heap of the cells.
pub fn cells(alloc: Global, trees: &[CellTree]) -> Result<Cells, OutOfMemory>
    requires { Each IsSmallCell (map cell_of trees.now) }
    ensures { IfOk result (λ h. h ≡ cells_value (map cell_of trees.now)) }
{
    let mut cells = Cells::new(alloc);
    let count = trees.len();
    for i in 0..count {
        let tree = &trees[count - 1 - i];
        cells.put(u64::from(tree.address), wide_numbers(alloc, &tree.fields)?)?;
    }
    Ok(cells)
}

/// The pick that a tree says.
fn pick(alloc: Global, tree: &PickTree) -> Result<Pick, OutOfMemory>
    ensures { IfOk result (λ p. p ≡ pick_of tree.now) }
{
    match tree {
        PickTree::Cell(cell) => {
            let fields = FieldValues::from_vec(wide_numbers(alloc, &cell.fields)?);
            Ok(Pick::Cell(u64::from(cell.address), fields))
        }
        PickTree::Jumps(jumps) => Ok(Pick::Jumps(*jumps)),
    }
}

/// The picks that trees say, in order.
pub fn picks(alloc: Global, trees: &[PickTree]) -> Result<Vec<Pick>, OutOfMemory>
    ensures { IfOk result (λ v. v.items ≡ map pick_of trees.now) }
{
    let mut picks = Vec::with_capacity(alloc, trees.len())?;
    for tree in trees {
        picks.push(pick(alloc, tree)?)?;
    }
    Ok(picks)
}
