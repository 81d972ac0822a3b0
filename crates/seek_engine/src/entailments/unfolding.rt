// Unfolding on the left.
use crate::Aim;
use crate::entailments::offers::MoveOffers;
use cyc_basics::memory::OutOfMemory;
use heap_formula::{Heap, Rule, Spatial, Term};
use seek_shapes::{mentions, shared_terms};
use std::alloc::Global;

/// How many terms the atom shares with the heaps.
fn nearness(atom: &Spatial, heaps: &[Heap]) -> u32 {
    let mut count: u32 = 0;
    for heap in heaps {
        for other in heap.spatial() {
            count = count.saturating_add(shared_terms(atom, other));
        }
    }
    count
}

fn is_wanted(atom: &Spatial, wanted: Option<Term>) -> bool {
    match wanted {
        Some(term) => mentions(atom, term),
        None => true,
    }
}

/// The places of the predicate atoms, those first that share the most terms with the succedent.
fn push_places(
    places: &mut Vec<(u32, u32)>,
    left: &Heap,
    right: &[Heap],
    wanted: Option<Term>,
) -> Result<(), OutOfMemory> {
    for (k, atom) in left.spatial().iter().enumerate() {
        if matches!(atom, Spatial::Pred(_, _)) && is_wanted(atom, wanted) {
            places.push((u32::MAX - nearness(atom, right), k as u32))?;
        }
    }
    places.sort()?;
    Ok(())
}

/// Unfold after all pure atoms were weakened, so that a companion asks for none.
fn bare_unfold(alloc: Global, left: &Heap, k: u32) -> Result<Vec<Rule>, OutOfMemory> {
    let mut rules = vec![in alloc; Rule::Weaken(0); left.pure().len()]?;
    rules.push(Rule::Unfold(k))?;
    Ok(rules)
}

/// Offers Unfold of each predicate atom, or of those in which a term stands, each also without the pure atoms if there
/// are any; and nothing after them.
pub fn push_unfolds(
    offers: &mut MoveOffers,
    left: &Heap,
    right: &[Heap],
    wanted: Option<Term>,
    fuel: u32,
) {
    offers.is_last = true;
    if fuel == 0 {
        return;
    }
    let alloc = offers.alloc;
    let mut places = Vec::new(alloc);
    if push_places(&mut places, left, right, wanted).is_err() {
        return offers.lack_memory();
    }
    let aim = Aim::Entail(fuel - 1);
    for (_, k) in &places {
        offers.push_rule(Rule::Unfold(*k), aim);
        if !left.pure().is_empty() {
            offers.push_step(bare_unfold(alloc, left, *k), None, aim);
        }
    }
}
