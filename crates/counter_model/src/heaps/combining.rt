// Lists of heaps, and the disjoint unions of their members.
ghost use Rattle.std.specs.Prelude.{◌≡◌, ◌⊎◌, ◌++◌, ◌∷◌, [], IsTrue, IfOk};
ghost use Rattle.heap_formula.specs.Words.{OneOf};
ghost use Rattle.heap_formula.specs.Cells.{Cells as SomeHeap, Star};
ghost use Rattle.counter_model.specs.Bounds.{IsAmong, Unites};

use crate::heaps::small_heaps::{are_apart, is_same, with_cells};
use cyc_basics::memory::OutOfMemory;
use goto_lang::Cells;
use std::alloc::Global;
use std::marker::Model;

/// Heaps, in the order in which they were found.
#[derive(Drop)]
pub struct Heaps {
    heaps: Vec<Cells>,
}

impl Model for Heaps {
    ghost use Rattle.std.specs.Prelude.{List};
    ghost use Rattle.std.specs.FinMap as map;
    ghost use Rattle.std.specs.Coded.{coded_ℕ, coded_list};
    ghost use Rattle.heap_formula.specs.Cells.{Cells};

    ghost Value = { List Cells };

    ghost coded = { coded_list (map.code coded_ℕ (coded_list coded_ℕ)) };

    ghost view = { λ h. h.heaps.items };
}

impl Heaps {
    pub fn new(alloc: Global) -> Heaps
        ensures { result ≡ [] }
    {
        Heaps {
            heaps: Vec::new(alloc),
        }
    }

    pub fn as_slice(&self) -> &[Cells]
        ensures { result.now ≡ self.now }
    {
        &self.heaps
    }

    pub fn push(&mut self, heap: Cells) -> Result<(), OutOfMemory>
        ensures { IfOk result (λ _. self.new ≡ self.old ++ heap ∷ []) }
    {
        self.heaps.push(heap)?;
        Ok(())
    }
}

/// Whether one of the heaps has the cells of this one, up to the greatest address.
pub fn has_heap(greatest: u32, heaps: &[Cells], heap: &Cells) -> bool
    ensures found { (h : SomeHeap) → IsTrue result → IsAmong greatest (heap.now ∷ []) h → IsAmong greatest heaps.now h }
    ensures missed { IsAmong greatest heaps.now heap.now → IsTrue result }
{
    for known in heaps {
        if is_same(greatest, known, heap) {
            return true;
        }
    }
    false
}

/// Adds the union of two heaps if they have no address in common.
fn add_union(
    alloc: Global,
    greatest: u32,
    out: &mut Heaps,
    part: &Cells,
    rest: &Cells,
) -> Result<(), OutOfMemory>
    ensures { IfOk result (λ _. (h : SomeHeap) → (IsAmong greatest out.old h ⊎ Unites greatest part.now rest.now h)
        → IsAmong greatest out.new h) }
{
    if are_apart(greatest, part, rest) {
        out.push(with_cells(alloc, greatest, part, rest)?)?;
    }
    Ok(())
}

fn add_unions(
    alloc: Global,
    greatest: u32,
    out: &mut Heaps,
    part: &Cells,
    others: &[Cells],
) -> Result<(), OutOfMemory>
    ensures { IfOk result (λ _. (h : SomeHeap)
        → (IsAmong greatest out.old h ⊎ OneOf (λ r. Unites greatest part.now r h) others.now)
        → IsAmong greatest out.new h) }
{
    for rest in others {
        add_union(alloc, greatest, out, part, rest)?;
    }
    Ok(())
}

/// The disjoint unions of a heap of each list.
pub fn combine(
    alloc: Global,
    greatest: u32,
    parts: &[Cells],
    others: &[Cells],
) -> Result<Heaps, OutOfMemory>
    ensures { IfOk result (λ out. (h : SomeHeap) → Star (IsAmong greatest parts.now) (IsAmong greatest others.now) h
        → IsAmong greatest out h) }
{
    let mut out = Heaps::new(alloc);
    for part in parts {
        add_unions(alloc, greatest, &mut out, part, others)?;
    }
    Ok(out)
}
