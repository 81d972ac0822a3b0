// A walk over a run file's tree in the order of its tokens, up to the first flaw. Each function is given the number of
// the part's first token and gives that of the token after it and the one that follows every part of its kind.
ghost use Rattle.std.specs.Prelude.{◌≡◌, ◌+◌, ◌<◌, ◌≤◌, ◌^◌, ◌||◌, length, map, nat_eq, take};
ghost use Rattle.std.specs.List.{list_any};
ghost use Rattle.heap_reader.specs.Spans.{total, heap_span};
ghost use Rattle.heap_reader.specs.Flaws.{IsName, IsWalk};
ghost use Rattle.heap_syntax.specs.DefinitionTrees.{heap_of};
ghost use Rattle.heap_reader.specs.DefinitionSpans.{term_span};
ghost use Rattle.heap_reader.specs.DefinitionFlaws.{headings};
ghost use Rattle.proof_file.specs.Flaws.{state_flaw};
ghost use Rattle.model_file.specs.Trees.{cell_of};
ghost use Rattle.model_file.specs.Spans.{numbers_span, values_span, cell_span, cells_span};
ghost use Rattle.model_file.specs.Flaws.{address_of, stack_flaw, fields_flaw, address_flaw, cell_flaw, cells_flaw};
ghost use Rattle.run_file.specs.Trees.{pick_of, run_of};
ghost use Rattle.run_file.specs.Spans.{pick_span, picks_span};
ghost use Rattle.run_file.specs.Flaws.{pick_flaw, picks_flaw, from_place, first_value, first_pick, outcome_place};
ghost use Rattle.run_file.specs.Flaws.{front_flaw, state_given_flaw, run_flaw as first_flaw};

use crate::tree::{PickTree, RunTree};
use cyc_basics::limits::{Limits, MOST_VALUES};
use cyc_lex::{IllFault, What};
use heap_reader::definitions::{Scope, walk_definitions};
use heap_reader::ends::walk_ends;
use heap_reader::lines::walk_lines;
use heap_reader::{Flaw, Heads, ill, over, walk_heap};
use heap_syntax::definitions::HeapTree;
use model_file::syntax::CellTree;
use proof_file::ProgramVariables;

/// The definitions, the lines and the ends, from the fourth token on.
fn front(heads: &Heads<'_>, tree: &RunTree<'_>) -> Result<usize, Flaw>
    requires known { heads.now ≡ headings (run_of tree.now).definitions }
    requires fits { from_place (run_of tree.now) < 2 ^ 64 }
    ensures { IsWalk result (front_flaw (run_of tree.now)) (from_place (run_of tree.now)) }
{
    let most = tree.version.limits();
    let first_line = walk_definitions(heads, most, 4, &tree.definitions)?;
    let first_end = walk_lines(&ProgramVariables, most, first_line, &tree.lines)?;
    walk_ends(heads, &Scope::End, most, &tree.lines, first_end, &tree.ends)
}

/// The word `from`, the number of a line, one of so many, and the precondition there.
fn state_claimed(
    heads: &Heads<'_>,
    most: Limits,
    count: usize,
    at: usize,
    line: u32,
    precondition: &HeapTree<'_>,
) -> Result<usize, Flaw>
    requires { at + 3 + heap_span term_span (heap_of precondition.now) < 2 ^ 64 }
    ensures { IsWalk result (state_flaw most heads.now count at line (heap_of precondition.now))
        (at + 3 + heap_span term_span (heap_of precondition.now)) }
{
    if line == 0 || line as usize > count {
        return Err(ill(IllFault::NoLine, at + 1));
    }
    walk_heap(heads, &Scope::Outside, most, at + 3, precondition)
}

/// The values of the stack and the semicolon.
fn stack(at: usize, values: &[u32]) -> Result<usize, Flaw>
    requires { at + values_span values.now < 2 ^ 64 }
    ensures { IsWalk result (stack_flaw at values.now) (at + values_span values.now) }
{
    if values.len() > MOST_VALUES {
        return Err(over(What::Stack, at + 131070));
    }
    match values {
        [] => Ok(at + 1),
        _ => Ok(at + 2 * values.len()),
    }
}

/// The fields of a cell and the parenthesis.
fn fields(most: Limits, at: usize, values: &[u32]) -> Result<usize, Flaw>
    requires { at + numbers_span values.now < 2 ^ 64 }
    ensures { IsWalk result (fields_flaw most at values.now) (at + numbers_span values.now) }
{
    let arguments = most.arguments as usize;
    if values.len() > arguments {
        return Err(over(What::Arguments, at + 2 * arguments));
    }
    Ok(at + 2 * values.len())
}

/// Whether a cell stands at the address.
fn has_address(cells: &[CellTree], address: u32) -> bool
    ensures { result ≡ list_any (λ cell. nat_eq address cell.address) cells.now }
{
    cells.iter().any(|cell| address == cell.address)
}

/// Whether one of the first n cells stands at the address.
fn is_taken(cells: &[CellTree], n: usize, address: u32) -> bool
    requires { n ≤ length cells.now }
    ensures { result ≡ list_any (nat_eq address) (map address_of (take n (map cell_of cells.now))) }
{
    has_address(&cells[..n], address)
}

/// The address of the cell before which n of all stand.
fn address(cells: &[CellTree], n: usize, at: usize, address: u32) -> Result<(), Flaw>
    requires { n ≤ length cells.now }
    ensures { IsName result (address_flaw (map address_of (take n (map cell_of cells.now))) at address) }
{
    if address == 0 || is_taken(cells, n, address) {
        return Err(ill(IllFault::Address, at));
    }
    Ok(())
}

/// The cell before which n of all stand.
fn cell(
    most: Limits,
    cells: &[CellTree],
    n: usize,
    at: usize,
    tree: &CellTree,
) -> Result<usize, Flaw>
    requires there { n < length cells.now }
    requires fits { at + cell_span (cell_of tree.now) < 2 ^ 64 }
    ensures { IsWalk result (cell_flaw most (map cell_of cells.now) n at (cell_of tree.now))
        (at + cell_span (cell_of tree.now)) }
{
    address(cells, n, at, tree.address)?;
    if n >= most.cells as usize {
        return Err(over(What::Cells, at));
    }
    let behind = fields(most, at + 3, &tree.fields)?;
    Ok(behind + 1)
}

fn some_cells(most: Limits, at: usize, trees: &[CellTree]) -> Result<usize, Flaw>
    requires { at + total cell_span (map cell_of trees.now) < 2 ^ 64 }
    ensures { IsWalk result (cells_flaw most at (map cell_of trees.now))
        (at + total cell_span (map cell_of trees.now)) }
{
    let mut next = at;
    for (n, tree) in trees.iter().enumerate() {
        next = cell(most, trees, n, next, tree)?;
    }
    Ok(next)
}

/// The cells of the heap and the semicolon.
fn cells(most: Limits, at: usize, trees: &[CellTree]) -> Result<usize, Flaw>
    requires { at + cells_span (map cell_of trees.now) < 2 ^ 64 }
    ensures { IsWalk result (cells_flaw most at (map cell_of trees.now)) (at + cells_span (map cell_of trees.now)) }
{
    match trees {
        [] => Ok(at + 1),
        _ => some_cells(most, at, trees),
    }
}

fn pick(most: Limits, at: usize, tree: &PickTree) -> Result<usize, Flaw>
    requires { at + pick_span (pick_of tree.now) < 2 ^ 64 }
    ensures { IsWalk result (pick_flaw most at (pick_of tree.now)) (at + pick_span (pick_of tree.now)) }
{
    match tree {
        PickTree::Cell(cell) => {
            let behind = fields(most, at + 3, &cell.fields)?;
            Ok(behind + 1)
        }
        PickTree::Jumps(_) => Ok(at + 2),
    }
}

fn some_picks(most: Limits, at: usize, trees: &[PickTree]) -> Result<usize, Flaw>
    requires { at + total pick_span (map pick_of trees.now) < 2 ^ 64 }
    ensures { IsWalk result (picks_flaw most at (map pick_of trees.now))
        (at + total pick_span (map pick_of trees.now)) }
{
    let mut next = at;
    for tree in trees {
        next = pick(most, next, tree)?;
    }
    Ok(next)
}

/// The picks and the semicolon.
fn picks(most: Limits, at: usize, trees: &[PickTree]) -> Result<usize, Flaw>
    requires { at + picks_span (map pick_of trees.now) < 2 ^ 64 }
    ensures { IsWalk result (picks_flaw most at (map pick_of trees.now)) (at + picks_span (map pick_of trees.now)) }
{
    match trees {
        [] => Ok(at + 1),
        _ => some_picks(most, at, trees),
    }
}

/// The stack and the heap, from the word `stack` on, and the word `picks`.
fn state_given(at: usize, tree: &RunTree<'_>) -> Result<usize, Flaw>
    requires place { at + 1 ≡ first_value (run_of tree.now) }
    requires fits { first_pick (run_of tree.now) < 2 ^ 64 }
    ensures { IsWalk result (state_given_flaw (run_of tree.now)) (first_pick (run_of tree.now)) }
{
    let behind_stack = stack(at + 1, &tree.stack)?;
    let behind_cells = cells(tree.version.limits(), behind_stack + 1, &tree.cells)?;
    Ok(behind_cells + 1)
}

/// All parts, from the fourth token on.
fn parts(heads: &Heads<'_>, tree: &RunTree<'_>) -> Result<usize, Flaw>
    requires known { heads.now ≡ headings (run_of tree.now).definitions }
    requires fits { outcome_place (run_of tree.now) < 2 ^ 64 }
    ensures { IsWalk result (first_flaw (run_of tree.now)) (outcome_place (run_of tree.now)) }
{
    let most = tree.version.limits();
    let from = front(heads, tree)?;
    let behind_claim = state_claimed(
        heads,
        most,
        tree.lines.len(),
        from,
        tree.line,
        &tree.precondition,
    )?;
    let first_pick = state_given(behind_claim, tree)?;
    picks(most, first_pick, &tree.picks)
}

/// The first flaw of a run file, by its token; the heads are those of its definitions.
pub fn run_flaw(heads: &Heads<'_>, tree: &RunTree<'_>) -> Option<Flaw>
    requires known { heads.now ≡ headings (run_of tree.now).definitions }
    requires fits { outcome_place (run_of tree.now) < 2 ^ 64 }
    ensures { result ≡ first_flaw (run_of tree.now) }
{
    parts(heads, tree).err()
}
