// The first heap with which a stack is a counter-model.
ghost use Rattle.std.specs.Prelude.{◌≡◌, ◌↔◌, ◌⊎◌, IsTrue, IfOk};
ghost use Rattle.heap_formula.specs.Words.{Each};
ghost use Rattle.heap_formula.specs.Cells.{Cells as SomeHeap};
ghost use Rattle.heap_formula.specs.Closedness.{IsUniversalHeap};
ghost use Rattle.heap_formula.specs.Meaning.{SatisfiesOne};
ghost use Rattle.model_check.specs.Constructive.{IsConstructive, AreConstructive};
ghost use Rattle.counter_model.specs.Bounds.{AreAtMost, IsWithin};
ghost use Rattle.counter_model.specs.FirstCounter.{IsCounter};
ghost use Rattle.counter_model.specs.Leading.{IsHeapFor, IsLed, IsFirstHeap};

use crate::heaps::fitting_heaps;
use crate::orders::compare_heaps;
use cyc_basics::memory::OutOfMemory;
use goto_lang::{Cells, Stack};
use heap_formula::Heap;
use model_check::satisfied;
use pred_defs::Defs;
use std::alloc::Global;
use std::cmp::Ordering;

fn satisfied_one(
    alloc: Global,
    defs: &Defs,
    stack: &Stack,
    heap: &Cells,
    disjuncts: &[Heap],
) -> Result<bool, OutOfMemory>
    requires definitions { AreConstructive defs.now.list }
    requires disjuncts { Each IsConstructive disjuncts.now }
    ensures { IfOk result (λ b. IsTrue b ↔ SatisfiesOne defs.now.list stack.now heap.now disjuncts.now) }
{
    for disjunct in disjuncts {
        if satisfied(alloc, defs, stack, heap, disjunct)? {
            return Ok(true);
        }
    }
    Ok(false)
}

fn is_counter(
    alloc: Global,
    defs: &Defs,
    stack: &Stack,
    heap: &Cells,
    antecedent: &Heap,
    disjuncts: &[Heap],
) -> Result<bool, OutOfMemory>
    requires definitions { AreConstructive defs.now.list }
    requires universal { IsUniversalHeap antecedent.now }
    requires disjuncts { Each IsConstructive disjuncts.now }
    ensures { IfOk result (λ b. IsTrue b ↔ IsCounter defs.now.list antecedent.now disjuncts.now stack.now heap.now) }
{
    if satisfied_one(alloc, defs, stack, heap, disjuncts)? {
        return Ok(false);
    }
    satisfied(alloc, defs, stack, heap, antecedent)
}

/// Whether a heap leads that does not come after this one.
fn is_led(greatest: u32, leader: &Option<Cells>, heap: &Cells) -> bool
    ensures { IsTrue result ↔ IsLed greatest leader.now heap.now }
{
    match leader {
        None => false,
        Some(first) => compare_heaps(greatest, first, heap) != Ordering::Greater,
    }
}

/// The first of the heap that leads and this one, if this one is a counter-model.
fn leading(
    alloc: Global,
    defs: &Defs,
    stack: &Stack,
    antecedent: &Heap,
    disjuncts: &[Heap],
    greatest: u32,
    leader: Option<Cells>,
    heap: &Cells,
) -> Result<Option<Cells>, OutOfMemory>
    requires definitions { AreConstructive defs.now.list }
    requires universal { IsUniversalHeap antecedent.now }
    requires disjuncts { Each IsConstructive disjuncts.now }
    requires leader { IsHeapFor greatest defs.now.list antecedent.now disjuncts.now stack.now leader }
    requires heap { IsWithin greatest heap.now }
    ensures counter { IfOk result (λ o. IsHeapFor greatest defs.now.list antecedent.now disjuncts.now stack.now o) }
    ensures first { IfOk result (λ o. (g : SomeHeap)
        → IsCounter defs.now.list antecedent.now disjuncts.now stack.now g
        → (IsLed greatest leader g ⊎ (heap.now ≡ g)) → IsLed greatest o g) }
{
    if is_led(greatest, &leader, heap) {
        return Ok(leader);
    }
    if is_counter(alloc, defs, stack, heap, antecedent, disjuncts)? {
        Ok(Some(heap.clone()?))
    } else {
        Ok(leader)
    }
}

/// The first heap of bounded size that satisfies, with the stack, the antecedent and no disjunct.
pub fn first_heap(
    alloc: Global,
    defs: &Defs,
    stack: &Stack,
    antecedent: &Heap,
    disjuncts: &[Heap],
    greatest: u32,
) -> Result<Option<Cells>, OutOfMemory>
    requires definitions { AreConstructive defs.now.list }
    requires universal { IsUniversalHeap antecedent.now }
    requires disjuncts { Each IsConstructive disjuncts.now }
    requires stack { AreAtMost greatest stack.now }
    ensures { IfOk result (λ o. IsFirstHeap greatest defs.now.list antecedent.now disjuncts.now stack.now o) }
{
    let heaps = fitting_heaps(alloc, defs, stack, antecedent, greatest)?;
    let mut leader = None;
    for heap in &heaps {
        leader = leading(
            alloc, defs, stack, antecedent, disjuncts, greatest, leader, heap,
        )?;
    }
    Ok(leader)
}
