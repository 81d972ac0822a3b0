// Models as trees, with the names of predicates borrowed from the definitions.
ghost use Rattle.std.specs.Prelude.{◌≡◌, ℕ, List, map, IfOk, Some, IsSome};
ghost use Rattle.heap_formula.specs.Words.{Each};
ghost use Rattle.heap_formula.specs.Cells.{cell_at};
ghost use Rattle.model_file.specs.Trees.{cell_of, model_of};
ghost use Rattle.model_file.specs.Small.{IsShortNumber, IsShortCell};
ghost use Rattle.model_file.specs.Written.{cells_tree, tree_of};

use crate::file::Model;
use crate::syntax::{CellTree, ModelTree};
use cyc_basics::memory::OutOfMemory;
use goto_lang::Cells;
use heap_reader::definitions::{definition_trees, heap_tree};
use std::alloc::Global;

/// The same numbers, each of which fits.
fn narrow_numbers(alloc: Global, values: &[u64]) -> Result<Vec<u32>, OutOfMemory>
    requires { Each IsShortNumber values.now }
    ensures { IfOk result (λ v. v.items ≡ values.now) }
{
    let mut narrow = Vec::with_capacity(alloc, values.len())?;
    for value in values {
        narrow.push(*value as u32)?;
    }
    Ok(narrow)
}

/// The cell at an address.
fn cell(alloc: Global, heap: &Cells, address: u64) -> Result<CellTree, OutOfMemory>
    requires there { IsSome (cell_at heap.now address) }
    requires short { (fields : List ℕ) → cell_at heap.now address ≡ Some fields
        → IsShortCell (record { address = address; fields = fields }) }
    ensures { IfOk result (λ t. (t.address ≡ address) × (cell_at heap.now address ≡ Some t.fields.items)) }
{
    match heap.get(address) {
        None => unreachable!(),
        Some(fields) => {
            let fields = narrow_numbers(alloc, fields)?;
            Ok(CellTree {
                address: address as u32,
                fields,
            })
        }
    }
}

/// The cells of a heap, ascending.
fn cells(alloc: Global, heap: &Cells) -> Result<Vec<CellTree>, OutOfMemory>
    requires { Each IsShortCell (cells_tree heap.now) }
    ensures { IfOk result (λ v. map cell_of v.items ≡ cells_tree heap.now) }
{
    let addresses = heap.addresses(alloc)?;
    let mut trees = Vec::with_capacity(alloc, addresses.len())?;
    for address in &addresses {
        trees.push(cell(alloc, heap, *address)?)?;
    }
    Ok(trees)
}

/// The tree of a model.
pub fn model_tree<'a>(alloc: Global, model: &'a Model) -> Result<ModelTree<'a>, OutOfMemory>
    ensures { IfOk result (λ t. model_of t
        ≡ tree_of model.now.version model.now.defs.list model.now.stack model.now.heap model.now.ask) }
{
    let defs = model.defs.as_slice();
    let definitions = definition_trees(alloc, defs)?;
    let stack = narrow_numbers(alloc, model.stack.as_slice())?;
    let cells = cells(alloc, &model.heap)?;
    let ask = heap_tree(alloc, defs, &model.ask)?;
    Ok(ModelTree {
        version: model.version,
        definitions,
        stack,
        cells,
        ask,
    })
}
