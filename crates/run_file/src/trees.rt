// Runs as trees, with the names of predicates borrowed from the definitions.
ghost use Rattle.std.specs.Prelude.{◌≡◌, ℕ, List, map, IfOk, Some, IsSome};
ghost use Rattle.heap_formula.specs.Words.{Each};
ghost use Rattle.heap_formula.specs.Cells.{cell_at};
ghost use Rattle.model_file.specs.Trees.{cell_of};
ghost use Rattle.model_file.specs.Small.{IsShortNumber, IsShortCell};
ghost use Rattle.model_file.specs.Written.{cells_tree};
ghost use Rattle.run_file.specs.Small.{IsShortPick};
ghost use Rattle.run_file.specs.Trees.{pick_of, run_of};
ghost use Rattle.run_file.specs.Written.{tree_of};

use crate::file::RunFile;
use crate::line_trees::lines;
use crate::tree::{PickTree, RunTree};
use cyc_basics::memory::OutOfMemory;
use general_models::runs::Pick;
use goto_lang::Cells;
use heap_reader::definitions::{definition_trees, heap_tree};
use heap_reader::ends::end_trees;
use model_file::syntax::CellTree;
use std::alloc::Global;

/// The same numbers, each of which fits.
fn narrow_numbers(alloc: Global, values: &[u64]) -> Result<Vec<u32>, OutOfMemory>
    requires { Each IsShortNumber values.now }
    ensures { IfOk result (λ v. v.items ≡ values.now) }
{
    let mut narrow = Vec::with_capacity(alloc, values.len())?;
    for value in values {
        narrow.push(*value as u32)?;
    }
    Ok(narrow)
}

/// The cell at an address.
fn cell(alloc: Global, heap: &Cells, address: u64) -> Result<CellTree, OutOfMemory>
    requires there { IsSome (cell_at heap.now address) }
    requires short { (fields : List ℕ) → cell_at heap.now address ≡ Some fields
        → IsShortCell (record { address = address; fields = fields }) }
    ensures { IfOk result (λ t. (t.address ≡ address) × (cell_at heap.now address ≡ Some t.fields.items)) }
{
    match heap.get(address) {
        None => unreachable!(),
        Some(fields) => {
            let fields = narrow_numbers(alloc, fields)?;
            Ok(CellTree {
                address: address as u32,
                fields,
            })
        }
    }
}

/// The cells of a heap, ascending.
fn cells(alloc: Global, heap: &Cells) -> Result<Vec<CellTree>, OutOfMemory>
    requires { Each IsShortCell (cells_tree heap.now) }
    ensures { IfOk result (λ v. map cell_of v.items ≡ cells_tree heap.now) }
{
    let addresses = heap.addresses(alloc)?;
    let mut trees = Vec::with_capacity(alloc, addresses.len())?;
    for address in &addresses {
        trees.push(cell(alloc, heap, *address)?)?;
    }
    Ok(trees)
}

fn pick(alloc: Global, value: &Pick) -> Result<PickTree, OutOfMemory>
    requires { IsShortPick value.now }
    ensures { IfOk result (λ t. pick_of t ≡ value.now) }
{
    match value {
        Pick::Cell(address, fields) => {
            let fields = narrow_numbers(alloc, fields.as_slice())?;
            Ok(PickTree::Cell(CellTree {
                address: *address as u32,
                fields,
            }))
        }
        Pick::Jumps(jumps) => Ok(PickTree::Jumps(*jumps)),
    }
}

fn picks(alloc: Global, values: &[Pick]) -> Result<Vec<PickTree>, OutOfMemory>
    requires { Each IsShortPick values.now }
    ensures { IfOk result (λ v. map pick_of v.items ≡ values.now) }
{
    let mut trees = Vec::with_capacity(alloc, values.len())?;
    for value in values {
        trees.push(pick(alloc, value)?)?;
    }
    Ok(trees)
}

/// The tree of a run.
pub fn run_tree<'a>(alloc: Global, run: &'a RunFile) -> Result<RunTree<'a>, OutOfMemory>
    ensures { IfOk result (λ t. run_of t ≡ tree_of run.now.version run.now.defs.list run.now.program run.now.line
        run.now.precondition run.now.stack run.now.heap run.now.picks.items run.now.outcome) }
{
    let defs = run.defs.as_slice();
    let definitions = definition_trees(alloc, defs)?;
    let lines = lines(alloc, &run.program)?;
    let ends = end_trees(alloc, defs, &run.program)?;
    let precondition = heap_tree(alloc, defs, &run.precondition)?;
    let stack = narrow_numbers(alloc, run.stack.as_slice())?;
    let cells = cells(alloc, &run.heap)?;
    let picks = picks(alloc, &run.picks)?;
    let outcome = run.outcome.clone()?;
    Ok(RunTree {
        version: run.version,
        definitions,
        lines,
        ends,
        line: run.line,
        precondition,
        stack,
        cells,
        picks,
        outcome,
    })
}
