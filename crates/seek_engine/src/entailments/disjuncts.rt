// Moves at an entailment of several disjuncts.
use crate::Aim;
use crate::entailments::offers::MoveOffers;
use crate::entailments::unfolding::push_unfolds;
use heap_formula::{Heap, Pure, Rule};
use rule_table::{has_pure, is_universal_pure};

fn push_chooses(offers: &mut MoveOffers, count: usize, fuel: u32) {
    let mut k: u32 = 0;
    for _ in 0..count {
        offers.push_rule(Rule::Choose(k), Aim::Entail(fuel));
        k = k.saturating_add(1);
    }
}

/// Whether the antecedent has neither the equation nor the disequation.
fn is_undecided(left: &Heap, atom: Pure) -> bool {
    let (Pure::Eq(t, u) | Pure::Neq(t, u)) = atom;
    is_universal_pure(atom)
        && t != u
        && !has_pure(left.pure(), Pure::Eq(t, u))
        && !has_pure(left.pure(), Pure::Neq(t, u))
}

fn push_splits_of(offers: &mut MoveOffers, left: &Heap, atoms: &[Pure], aim: Aim) {
    for atom in atoms {
        let (Pure::Eq(t, u) | Pure::Neq(t, u)) = *atom;
        if is_undecided(left, *atom) {
            offers.push_rule(Rule::Split(t, u), aim);
        }
    }
}

fn push_splits(offers: &mut MoveOffers, left: &Heap, heaps: &[Heap], fuel: u32) {
    if fuel == 0 {
        return;
    }
    for heap in heaps {
        push_splits_of(offers, left, heap.pure(), Aim::Entail(fuel - 1));
    }
}

/// Each disjunct; then Split on what they leave open; then Unfold.
pub fn disjunct_stage(offers: &mut MoveOffers, left: &Heap, heaps: &[Heap], fuel: u32, stage: u32) {
    match stage {
        1 => push_chooses(offers, heaps.len(), fuel),
        2 => push_splits(offers, left, heaps, fuel),
        3 => push_unfolds(offers, left, heaps, None, fuel),
        _ => offers.is_last = true,
    }
}
