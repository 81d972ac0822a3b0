// The heaps of which a list of atoms holds, by what is found of the predicates.
ghost use Rattle.std.specs.Prelude.{◌≡◌, ℕ, IfOk, [], ◌∷◌};
ghost use Rattle.heap_formula.specs.Cells.{Cells as SomeHeap, no_cells};
ghost use Rattle.heap_formula.specs.Meaning.{SpatialHolds, IsCell};
ghost use Rattle.counter_model.specs.Bounds.{IsAmong};
ghost use Rattle.counter_model.specs.Findings.{found_if_asked, UnlessGrown, TakesAtom};

use crate::heaps::combining::{Heaps, combine};
use crate::heaps::table::Table;
use crate::heaps::values::{value_of, values_of};
use cyc_basics::memory::OutOfMemory;
use goto_lang::Cells;
use heap_formula::Spatial;
use std::alloc::Global;

/// The heap of one cell; none where the address is `nil` or there are no fields.
fn one_cell(alloc: Global, address: u64, fields: Vec<u64>) -> Result<Heaps, OutOfMemory>
    ensures { IfOk result (λ hs. (n : ℕ) (h : SomeHeap) → IsCell address fields.items h → IsAmong n hs h) }
{
    let mut heaps = Heaps::new(alloc);
    if address > 0 && !fields.is_empty() {
        let mut heap = Cells::new(alloc);
        heap.put(address, fields)?;
        heaps.push(heap)?;
    }
    Ok(heaps)
}

/// The unions of one of the heaps with one of which the atom holds, and whether its question is new.
fn with_atom(
    alloc: Global,
    greatest: u32,
    table: &mut Table,
    stack: &[u64],
    locals: &[u64],
    parts: &[Cells],
    atom: &Spatial,
) -> Result<(Heaps, bool), OutOfMemory>
    ensures { IfOk result (λ r. UnlessGrown r.1 table.old table.new
        (TakesAtom greatest table.old stack.now locals.now parts.now atom.now r.0)) }
{
    match atom {
        Spatial::Cell(t, ts) => {
            let fields = values_of(alloc, stack, locals, ts.as_slice())?;
            let cells = one_cell(alloc, value_of(stack, locals, *t), fields)?;
            Ok((combine(alloc, greatest, parts, cells.as_slice())?, false))
        }
        Spatial::Pred(p, ts) => {
            let values = values_of(alloc, stack, locals, ts.as_slice())?;
            let (q, is_new) = table.ask(alloc, *p, values)?;
            Ok((combine(alloc, greatest, parts, table.heaps(q))?, is_new))
        }
    }
}

fn empty_heap(alloc: Global) -> Result<Heaps, OutOfMemory>
    ensures { IfOk result (λ hs. hs ≡ no_cells ∷ []) }
{
    let mut heaps = Heaps::new(alloc);
    heaps.push(Cells::new(alloc))?;
    Ok(heaps)
}

/// The heaps of which the atoms hold, and whether one of their questions is new.
pub fn unions(
    alloc: Global,
    greatest: u32,
    table: &mut Table,
    stack: &[u64],
    locals: &[u64],
    atoms: &[Spatial],
) -> Result<(Heaps, bool), OutOfMemory>
    ensures { IfOk result (λ r. UnlessGrown r.1 table.old table.new ((h : SomeHeap)
        → SpatialHolds (λ _. found_if_asked greatest table.old) stack.now locals.now atoms.now h
        → IsAmong greatest r.0 h)) }
{
    let mut heaps = empty_heap(alloc)?;
    let mut asked = false;
    for atom in atoms {
        if heaps.as_slice().is_empty() {
            return Ok((heaps, asked));
        }
        let (more, is_new) = with_atom(
            alloc,
            greatest,
            table,
            stack,
            locals,
            heaps.as_slice(),
            atom,
        )?;
        heaps = more;
        asked = asked || is_new;
    }
    Ok((heaps, asked))
}
