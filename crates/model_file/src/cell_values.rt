// Stacks and heaps as values, and as numbers and cells of a text.
ghost use Rattle.std.specs.Prelude.{◌≡◌, ◌<◌, map, IfOk};
ghost use Rattle.heap_formula.specs.Words.{Each};
ghost use Rattle.model_file.specs.Trees.{cell_of};
ghost use Rattle.model_file.specs.Small.{IsSmallCell};
ghost use Rattle.model_file.specs.Values.{cells_value};

use crate::syntax::CellTree;
use cyc_basics::memory::OutOfMemory;
use goto_lang::Cells;
use std::alloc::Global;

/// The same numbers.
pub fn wide_numbers(alloc: Global, numbers: &[u32]) -> Result<Vec<u64>, OutOfMemory>
    ensures { IfOk result (λ v. v.items ≡ numbers.now) }
{
    let mut wide = Vec::with_capacity(alloc, numbers.len())?;
    for number in numbers {
        wide.push(u64::from(*number))?;
    }
    Ok(wide)
}

/// The heap of the cells.
pub fn cells(alloc: Global, trees: &[CellTree]) -> Result<Cells, OutOfMemory>
    requires { Each IsSmallCell (map cell_of trees.now) }
    ensures { IfOk result (λ h. h ≡ cells_value (map cell_of trees.now)) }
{
    let mut cells = Cells::new(alloc);
    let count = trees.len();
    for i in 0..count {
        let tree = &trees[count - 1 - i];
        cells.put(u64::from(tree.address), wide_numbers(alloc, &tree.fields)?)?;
    }
    Ok(cells)
}
