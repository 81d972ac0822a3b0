// The call that looks for a counter-model.
ghost use Rattle.std.specs.Prelude.{◌≡◌, ◌↔◌, ◌<◌, ◌≤◌, ℕ, List, None, IfOk, map, max};
ghost use Rattle.heap_formula.specs.Words.{max_of};
ghost use Rattle.heap_formula.specs.Cells.{Cells as SomeHeap};
ghost use Rattle.heap_formula.specs.Closedness.{IsUniversalHeap};
ghost use Rattle.heap_formula.specs.Fresh.{heap_bound, judgement_bound};
ghost use Rattle.heap_formula.specs.declared.judgements.Judgement.{Judgement};
ghost use Rattle.model_check.specs.FirstPlaces.{IsPlace, IsFirstPlace};
ghost use Rattle.counter_model.specs.FirstCounter.{HasSize, IsCounter, IsFirstCounter};

use crate::first_stacks::first_model;
use cyc_basics::limits::MOST_UNIVERSALS;
use cyc_basics::memory::OutOfMemory;
use goto_lang::{Cells, Stack};
use heap_formula::{Disjuncts, Heap, bound_of_heap};
use model_check::{Place, constructive_all};
use pred_defs::Defs;
use std::alloc::Global;

/// What a search for a counter-model comes to: the first one, or none of the size, or why no search was made.
#[derive(Drop)]
pub enum Refuted {
    Found(Stack, Cells),
    NotFound,
    NotConstructive(Place),
    TooManyUniversals,
}

fn bound_of_heaps(heaps: &[Heap]) -> u32
    ensures { result ≡ max_of (map heap_bound heaps.now) }
{
    let mut most = 0;
    for heap in heaps {
        most = most.max(bound_of_heap(heap));
    }
    most
}

/// The first stack and heap that satisfy the antecedent and no disjunct, with addresses from 1 to `cells`, and entries
/// and fields from 0 to `cells`. The stack has one entry for each number up to the greatest universal. Stacks are
/// compared as lists; then heaps, from address 1 on, a missing cell before any other, then by the number of fields,
/// then by the fields. No search is made where a universal's number is above 7, or else where a case of the definitions
/// or a disjunct is not constructive (`model_check`), of which the first is named. `is_universal` tests the antecedent.
pub fn refute(
    alloc: Global,
    defs: &Defs,
    antecedent: &Heap,
    disjuncts: &Disjuncts,
    cells: u32,
) -> Result<Refuted, OutOfMemory>
    requires { IsUniversalHeap antecedent.now }
    ensures found { IfOk result (λ r. (s : List ℕ) (h : SomeHeap) → r ≡ Refuted.Found s h
        → IsFirstCounter defs.now.list antecedent.now disjuncts.now cells s h) }
    ensures not_found { IfOk result (λ r. r ≡ Refuted.NotFound → (s : List ℕ) (h : SomeHeap)
        → HasSize defs.now.list antecedent.now disjuncts.now cells s h
        → ¬ IsCounter defs.now.list antecedent.now disjuncts.now s h) }
    ensures found_searched { IfOk result (λ r. (s : List ℕ) (h : SomeHeap) → r ≡ Refuted.Found s h
        → IsFirstPlace defs.now.list disjuncts.now None) }
    ensures not_found_searched { IfOk result (λ r. r ≡ Refuted.NotFound
        → IsFirstPlace defs.now.list disjuncts.now None) }
    ensures not_constructive { IfOk result (λ r. (place : _) → (r ≡ Refuted.NotConstructive place)
        ↔ ((judgement_bound (Judgement.Entail antecedent.now disjuncts.now) ≤ MOST_UNIVERSALS)
        × IsPlace defs.now.list disjuncts.now place)) }
    ensures too_many { IfOk result (λ r. (r ≡ Refuted.TooManyUniversals)
        ↔ (MOST_UNIVERSALS < judgement_bound (Judgement.Entail antecedent.now disjuncts.now))) }
{
    let bound = bound_of_heap(antecedent).max(bound_of_heaps(disjuncts.heaps()));
    if bound > MOST_UNIVERSALS {
        return Ok(Refuted::TooManyUniversals);
    }
    if let Some(place) = constructive_all(alloc, defs, disjuncts.heaps())? {
        return Ok(Refuted::NotConstructive(place));
    }
    match first_model(alloc, defs, antecedent, disjuncts.heaps(), cells, bound)? {
        None => Ok(Refuted::NotFound),
        Some(model) => Ok(Refuted::Found(model.stack, model.heap)),
    }
}
