// The heaps that may satisfy a formula.
ghost use Rattle.std.specs.Prelude.{◌⊎◌, ◌↔◌, IsTrue, IfOk};
ghost use Rattle.heap_formula.specs.Words.{Each};
ghost use Rattle.heap_formula.specs.Cells.{Cells as SomeHeap};
ghost use Rattle.heap_formula.specs.Closedness.{IsUniversalHeap};
ghost use Rattle.heap_formula.specs.Meaning.{Satisfies};
ghost use Rattle.model_check.specs.Constructive.{AreConstructive};
ghost use Rattle.cyc_basics.specs.Words.{IsMember};
ghost use Rattle.counter_model.specs.Bounds.{AreAtMost, IsWithin, SameUpTo, IsAmong};

use crate::heaps::asking::unions;
use crate::heaps::combining::Heaps;
use crate::heaps::refreshing::refresh_all;
use crate::heaps::small_heaps::{has_small_fields, with_cells};
use crate::heaps::table::Table;
use crate::heaps::values::may_all_hold;
use cyc_basics::memory::OutOfMemory;
use goto_lang::{Cells, Stack};
use heap_formula::{Heap, exists_in_heap};
use pred_defs::Defs;
use std::alloc::Global;

/// Whether a formula has no existential variables, as `fitting_heaps` asks of its formula.
pub fn is_universal(heap: &Heap) -> bool
    ensures { IsTrue result ↔ IsUniversalHeap heap.now }
{
    exists_in_heap(heap) == 0
}

/// Turns are taken until one finds nothing new. Each one before it has added something to the table.
fn fitting(
    alloc: Global,
    defs: &Defs,
    stack: &[u64],
    ask: &Heap,
    greatest: u32,
) -> Result<Heaps, OutOfMemory>
    requires definitions { AreConstructive defs.now.list }
    requires universal { IsUniversalHeap ask.now }
    requires stack { AreAtMost greatest stack.now }
    ensures { IfOk result (λ hs. (h : SomeHeap) → IsWithin greatest h → Satisfies defs.now.list stack.now h ask.now
        → IsAmong greatest hs h) }
{
    if !may_all_hold(stack, &[], ask.pure()) {
        return Ok(Heaps::new(alloc));
    }
    let mut table = Table::new(alloc);
    for _turn in 0..usize::MAX {
        let (heaps, asked) = unions(alloc, greatest, &mut table, stack, &[], ask.spatial())?;
        let grown = refresh_all(alloc, defs, greatest, &mut table)?;
        if !asked && !grown {
            return Ok(heaps);
        }
    }
    Err(table.does_not_fit())
}

/// Adds the cells of a heap up to the greatest address, if the fields are not above it.
fn push_small(
    alloc: Global,
    greatest: u32,
    out: &mut Vec<Cells>,
    heap: &Cells,
) -> Result<(), OutOfMemory>
    ensures complete { IfOk result (λ _. (h : SomeHeap) → IsWithin greatest h
        → (IsMember h out.old.items ⊎ SameUpTo greatest heap.now h) → IsMember h out.new.items) }
    ensures within { IfOk result (λ _. Each (IsWithin greatest) out.old.items
        → Each (IsWithin greatest) out.new.items) }
{
    let none = Cells::new(alloc);
    let small = with_cells(alloc, greatest, &none, heap)?;
    if !has_small_fields(greatest, &small) {
        return Ok(());
    }
    out.push(small)?;
    Ok(())
}

/// Heaps with addresses from 1 to the greatest and fields from 0 to it, among which are all that satisfy the formula;
/// others may be among them.
pub fn fitting_heaps(
    alloc: Global,
    defs: &Defs,
    stack: &Stack,
    ask: &Heap,
    greatest: u32,
) -> Result<Vec<Cells>, OutOfMemory>
    requires definitions { AreConstructive defs.now.list }
    requires universal { IsUniversalHeap ask.now }
    requires stack { AreAtMost greatest stack.now }
    ensures complete { IfOk result (λ v. (h : SomeHeap) → IsWithin greatest h
        → Satisfies defs.now.list stack.now h ask.now → IsMember h v.items) }
    ensures within { IfOk result (λ v. Each (IsWithin greatest) v.items) }
{
    let heaps = fitting(alloc, defs, stack.as_slice(), ask, greatest)?;
    let mut out = Vec::new(alloc);
    for heap in heaps.as_slice() {
        push_small(alloc, greatest, &mut out, heap)?;
    }
    Ok(out)
}
