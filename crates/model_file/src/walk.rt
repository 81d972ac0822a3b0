// A walk over a model file's tree in the order of its tokens, up to the first flaw. Each function is given the number
// of the part's first token and gives that of the token after it and the one that follows every part of its kind.
ghost use Rattle.std.specs.Prelude.{◌≡◌, ◌+◌, ◌<◌, ◌≤◌, ◌^◌, ◌||◌, length, map, nat_eq, take};
ghost use Rattle.std.specs.List.{list_any};
ghost use Rattle.heap_reader.specs.Spans.{total, heap_span};
ghost use Rattle.heap_reader.specs.Flaws.{IsName, IsWalk};
ghost use Rattle.heap_reader.specs.declared.definitions.scope.Scope.TheVariants.{Outside};
ghost use Rattle.heap_reader.specs.DefinitionSpans.{term_span};
ghost use Rattle.heap_reader.specs.DefinitionFlaws.{headings};
ghost use Rattle.model_file.specs.Trees.{cell_of, model_of};
ghost use Rattle.model_file.specs.Spans.{numbers_span, values_span, cell_span, cells_span};
ghost use Rattle.model_file.specs.Flaws.{address_of, stack_flaw, fields_flaw, address_flaw, cell_flaw, cells_flaw};
ghost use Rattle.model_file.specs.Flaws.{allowed, first_value, first_atom, behind_definitions_flaw};
ghost use Rattle.model_file.specs.Flaws.{model_flaw as first_flaw};

use crate::syntax::{CellTree, ModelTree};
use cyc_basics::limits::{Limits, MOST_VALUES};
use cyc_lex::{IllFault, What};
use heap_reader::definitions::{Scope, walk_definitions};
use heap_reader::{Flaw, Heads, ill, over, walk_heap};

/// The values of the stack and the semicolon.
fn stack(at: usize, values: &[u32]) -> Result<usize, Flaw>
    requires { at + values_span values.now < 2 ^ 64 }
    ensures { IsWalk result (stack_flaw at values.now) (at + values_span values.now) }
{
    if values.len() > MOST_VALUES {
        return Err(over(What::Stack, at + 131070));
    }
    match values {
        [] => Ok(at + 1),
        _ => Ok(at + 2 * values.len()),
    }
}

/// The fields of a cell and the parenthesis.
fn fields(most: Limits, at: usize, values: &[u32]) -> Result<usize, Flaw>
    requires { at + numbers_span values.now < 2 ^ 64 }
    ensures { IsWalk result (fields_flaw most at values.now) (at + numbers_span values.now) }
{
    let arguments = most.arguments as usize;
    if values.len() > arguments {
        return Err(over(What::Arguments, at + 2 * arguments));
    }
    Ok(at + 2 * values.len())
}

/// Whether a cell stands at the address.
fn has_address(cells: &[CellTree], address: u32) -> bool
    ensures { result ≡ list_any (λ cell. nat_eq address cell.address) cells.now }
{
    cells.iter().any(|cell| address == cell.address)
}

/// Whether one of the first n cells stands at the address.
fn is_taken(cells: &[CellTree], n: usize, address: u32) -> bool
    requires { n ≤ length cells.now }
    ensures { result ≡ list_any (nat_eq address) (map address_of (take n (map cell_of cells.now))) }
{
    has_address(&cells[..n], address)
}

/// The address of the cell before which n of all stand.
fn address(cells: &[CellTree], n: usize, at: usize, address: u32) -> Result<(), Flaw>
    requires { n ≤ length cells.now }
    ensures { IsName result (address_flaw (map address_of (take n (map cell_of cells.now))) at address) }
{
    if address == 0 || is_taken(cells, n, address) {
        return Err(ill(IllFault::Address, at));
    }
    Ok(())
}

/// The cell before which n of all stand.
fn cell(
    most: Limits,
    cells: &[CellTree],
    n: usize,
    at: usize,
    tree: &CellTree,
) -> Result<usize, Flaw>
    requires there { n < length cells.now }
    requires fits { at + cell_span (cell_of tree.now) < 2 ^ 64 }
    ensures { IsWalk result (cell_flaw most (map cell_of cells.now) n at (cell_of tree.now))
        (at + cell_span (cell_of tree.now)) }
{
    address(cells, n, at, tree.address)?;
    if n >= most.cells as usize {
        return Err(over(What::Cells, at));
    }
    let behind = fields(most, at + 3, &tree.fields)?;
    Ok(behind + 1)
}

fn some_cells(most: Limits, at: usize, trees: &[CellTree]) -> Result<usize, Flaw>
    requires { at + total cell_span (map cell_of trees.now) < 2 ^ 64 }
    ensures { IsWalk result (cells_flaw most at (map cell_of trees.now))
        (at + total cell_span (map cell_of trees.now)) }
{
    let mut next = at;
    for (n, tree) in trees.iter().enumerate() {
        next = cell(most, trees, n, next, tree)?;
    }
    Ok(next)
}

/// The cells of the heap and the semicolon.
fn cells(most: Limits, at: usize, trees: &[CellTree]) -> Result<usize, Flaw>
    requires { at + cells_span (map cell_of trees.now) < 2 ^ 64 }
    ensures { IsWalk result (cells_flaw most at (map cell_of trees.now)) (at + cells_span (map cell_of trees.now)) }
{
    match trees {
        [] => Ok(at + 1),
        _ => some_cells(most, at, trees),
    }
}

/// The stack, the heap and the formula, the first of which begins at a token.
fn behind_definitions(
    heads: &Heads<'_>,
    most: Limits,
    at: usize,
    tree: &ModelTree<'_>,
) -> Result<usize, Flaw>
    requires known { heads.now ≡ headings (model_of tree.now).definitions }
    requires limits { most ≡ allowed (model_of tree.now) }
    requires place { at + 1 ≡ first_value (model_of tree.now) }
    requires fits { first_atom (model_of tree.now) + heap_span term_span (model_of tree.now).ask < 2 ^ 64 }
    ensures { IsWalk result (behind_definitions_flaw (model_of tree.now))
        (first_atom (model_of tree.now) + heap_span term_span (model_of tree.now).ask) }
{
    let behind_stack = stack(at + 1, &tree.stack)?;
    let behind_cells = cells(most, behind_stack + 1, &tree.cells)?;
    walk_heap(heads, &Scope::Outside, most, behind_cells + 1, &tree.ask)
}

/// All parts, from the fourth token on.
fn parts(heads: &Heads<'_>, tree: &ModelTree<'_>) -> Result<usize, Flaw>
    requires known { heads.now ≡ headings (model_of tree.now).definitions }
    requires fits { first_atom (model_of tree.now) + heap_span term_span (model_of tree.now).ask < 2 ^ 64 }
    ensures { IsWalk result (first_flaw (model_of tree.now))
        (first_atom (model_of tree.now) + heap_span term_span (model_of tree.now).ask) }
{
    let most = tree.version.limits();
    let behind = walk_definitions(heads, most, 4, &tree.definitions)?;
    behind_definitions(heads, most, behind, tree)
}

/// The first flaw of a model file, by its token; the heads are those of its definitions.
pub fn model_flaw(heads: &Heads<'_>, tree: &ModelTree<'_>) -> Option<Flaw>
    requires known { heads.now ≡ headings (model_of tree.now).definitions }
    requires fits { first_atom (model_of tree.now) + heap_span term_span (model_of tree.now).ask < 2 ^ 64 }
    ensures { result ≡ first_flaw (model_of tree.now) }
{
    parts(heads, tree).err()
}
