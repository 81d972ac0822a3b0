// The first stack that has a heap with which it is a counter-model.
ghost use Rattle.std.specs.Prelude.{◌≡◌, ◌⊎◌, ◌↔◌, ℕ, List, IsTrue, IfOk};
ghost use Rattle.heap_formula.specs.Words.{Each};
ghost use Rattle.heap_formula.specs.Cells.{Cells as SomeHeap};
ghost use Rattle.heap_formula.specs.Closedness.{IsUniversalHeap};
ghost use Rattle.model_check.specs.Constructive.{IsConstructive, AreConstructive};
ghost use Rattle.counter_model.specs.Bounds.{AreAtMost, IsWithin};
ghost use Rattle.counter_model.specs.FirstCounter.{IsCounter};
ghost use Rattle.counter_model.specs.Tightness.{IsStack};
ghost use Rattle.counter_model.specs.Leaders.{IsPairFor, IsStackLed, IsLeader};

use crate::first_heaps::first_heap;
use crate::orders::compare_lists;
use crate::tight_stacks::tight_stacks;
use cyc_basics::memory::OutOfMemory;
use goto_lang::{Cells, Stack};
use heap_formula::Heap;
use pred_defs::Defs;
use std::alloc::Global;
use std::cmp::Ordering;

/// A stack and a heap.
#[derive(Drop)]
pub struct CounterModel {
    pub stack: Stack,
    pub heap: Cells,
}

/// Whether a stack leads that does not come after this one.
fn is_led(leader: &Option<CounterModel>, stack: &Stack) -> bool
    ensures { IsTrue result ↔ IsStackLed leader.now stack.now }
{
    match leader {
        None => false,
        Some(first) => {
            compare_lists(first.stack.as_slice(), stack.as_slice()) != Ordering::Greater
        }
    }
}

/// The first of the stack that leads and this one, if this one has a counter-model.
fn leading(
    alloc: Global,
    defs: &Defs,
    antecedent: &Heap,
    disjuncts: &[Heap],
    greatest: u32,
    leader: Option<CounterModel>,
    stack: &Stack,
) -> Result<Option<CounterModel>, OutOfMemory>
    requires definitions { AreConstructive defs.now.list }
    requires universal { IsUniversalHeap antecedent.now }
    requires disjuncts { Each IsConstructive disjuncts.now }
    requires stack { AreAtMost greatest stack.now }
    ensures pair { IfOk result (λ o. (long : ℕ) → IsStack greatest long stack.now
        → IsPairFor greatest long defs.now.list antecedent.now disjuncts.now leader
        → IsPairFor greatest long defs.now.list antecedent.now disjuncts.now o) }
    ensures first { IfOk result (λ o. (t : List ℕ) (g : SomeHeap) → IsWithin greatest g
        → IsCounter defs.now.list antecedent.now disjuncts.now t g → (IsStackLed leader t ⊎ (stack.now ≡ t))
        → IsStackLed o t) }
{
    if is_led(&leader, stack) {
        return Ok(leader);
    }
    match first_heap(alloc, defs, stack, antecedent, disjuncts, greatest)? {
        None => Ok(leader),
        Some(heap) => {
            let stack = stack.clone()?;
            Ok(Some(CounterModel { stack, heap }))
        }
    }
}

/// The first stack of so many entries that has a counter-model of bounded size, with the first such heap.
pub fn first_model(
    alloc: Global,
    defs: &Defs,
    antecedent: &Heap,
    disjuncts: &[Heap],
    greatest: u32,
    count: u32,
) -> Result<Option<CounterModel>, OutOfMemory>
    requires definitions { AreConstructive defs.now.list }
    requires universal { IsUniversalHeap antecedent.now }
    requires disjuncts { Each IsConstructive disjuncts.now }
    ensures { IfOk result (λ o. IsLeader greatest count defs.now.list antecedent.now disjuncts.now o) }
{
    let stacks = tight_stacks(alloc, greatest, count)?;
    let mut leader = None;
    for stack in &stacks {
        leader = leading(alloc, defs, antecedent, disjuncts, greatest, leader, stack)?;
    }
    Ok(leader)
}
