// A companion as a lemma: what it entails comes in the place of atoms that its antecedent covers.
use crate::entailments::matching::{Matcher, Matching, value_of};
use crate::entailments::offers::{MoveOffers, companions, only};
use crate::entailments::sequents::Sequent;
use crate::{Aim, Draft, Move};
use cyc_basics::memory::OutOfMemory;
use heap_formula::{
    Heap, Judgement, Positions, Pure, Rule, Spatial, Subst, Term, apply_to_heap, apply_to_pure,
};
use rule_table::follows;
use seek_shapes::{address, arguments};

/// Adds terms for variables that only the companion's succedent has: those by which its atoms become atoms of the
/// goal's.
fn complete(
    matcher: &Matcher<'_>,
    pairs: &mut Vec<(u16, Term)>,
    lemma: &Heap,
    right: &Heap,
) -> Result<(), OutOfMemory> {
    for from in lemma.spatial() {
        for to in right.spatial() {
            if let Some(longer) = matcher.match_atom(pairs, from, to)? {
                *pairs = longer;
                break;
            }
        }
    }
    Ok(())
}

fn is_known(pairs: &[(u16, Term)], term: Term) -> bool {
    match term {
        Term::Univ(n) => value_of(pairs, n).is_some(),
        Term::Nil | Term::Exist(_) => true,
    }
}

fn is_known_pure(pairs: &[(u16, Term)], atom: Pure) -> bool {
    let (Pure::Eq(t, u) | Pure::Neq(t, u)) = atom;
    is_known(pairs, t) && is_known(pairs, u)
}

fn is_known_spatial(pairs: &[(u16, Term)], atom: &Spatial) -> bool {
    for term in arguments(atom) {
        if !is_known(pairs, *term) {
            return false;
        }
    }
    match address(atom) {
        Some(term) => is_known(pairs, term),
        None => true,
    }
}

fn is_known_heap(pairs: &[(u16, Term)], heap: &Heap) -> bool {
    for atom in heap.pure() {
        if !is_known_pure(pairs, *atom) {
            return false;
        }
    }
    for atom in heap.spatial() {
        if !is_known_spatial(pairs, atom) {
            return false;
        }
    }
    true
}

/// Whether the companion's pure atoms follow, with the terms in place of its variables.
fn has_pures(left: &Heap, lemma: &Heap, subst: &Subst) -> bool {
    for atom in lemma.pure() {
        let is_known = is_known_pure(subst.pairs(), *atom);
        if !is_known || !follows(left.pure(), apply_to_pure(*atom, subst)) {
            return false;
        }
    }
    true
}

/// The places in ascending order.
fn push_sorted(numbers: &mut Vec<u32>, places: &[Option<u32>]) -> Result<(), OutOfMemory> {
    for place in places {
        if let Some(place) = place {
            numbers.push(*place)?;
        }
    }
    numbers.sort()?;
    Ok(())
}

/// Whether the formula has just the atoms at the places.
fn is_idle(left: &Heap, places: &[u32], formula: &Heap) -> bool {
    if !formula.pure().is_empty() || formula.spatial().len() != places.len() {
        return false;
    }
    for place in places {
        let Some(atom) = left.spatial_at(*place) else {
            return false;
        };
        if !formula.spatial().contains(atom) {
            return false;
        }
    }
    true
}

fn is_cut(next: &Move, places: &[u32], formula: &Heap) -> bool {
    match next {
        Move::Step(step) => match step.rules.first() {
            Some(Rule::Cut(others, other)) => others.as_slice() == places && *other == *formula,
            _ => false,
        },
        _ => false,
    }
}

fn has_cut(moves: &[Move], places: &[u32], formula: &Heap) -> bool {
    for next in moves {
        if is_cut(next, places, formula) {
            return true;
        }
    }
    false
}

/// The Cut of atoms by a formula that a companion gives, unless it is idle or offered already.
fn push_cut(
    offers: &mut MoveOffers,
    sequent: &Sequent<'_>,
    companion: u32,
    places: &[Option<u32>],
    formula: Heap,
) {
    let mut numbers = Vec::new(offers.alloc);
    if push_sorted(&mut numbers, places).is_err() {
        return offers.lack_memory();
    }
    if is_idle(sequent.left, &numbers, &formula) || has_cut(&offers.moves, &numbers, &formula) {
        return;
    }
    let rule = Rule::Cut(Positions::from_vec(numbers), formula);
    let rules = only(offers.alloc, rule);
    offers.push_step(rules, Some(Aim::Link(companion)), sequent.less());
}

/// The Cut by what a companion's succedent says here under a map of its antecedent, if the map has terms for all of it.
fn push_application(
    offers: &mut MoveOffers,
    sequent: &Sequent<'_>,
    matcher: &Matcher<'_>,
    companion: u32,
    lemma: (&Heap, &Heap),
    places: &[Option<u32>],
    mut pairs: Vec<(u16, Term)>,
) {
    let (antecedent, succedent) = lemma;
    if complete(matcher, &mut pairs, succedent, sequent.right).is_err() {
        return offers.lack_memory();
    }
    let subst = Subst::from_vec(pairs);
    if !is_known_heap(subst.pairs(), succedent) || !has_pures(sequent.left, antecedent, &subst) {
        return;
    }
    match apply_to_heap(matcher.alloc, succedent, &subst) {
        Ok(formula) => push_cut(offers, sequent, companion, places, formula),
        Err(OutOfMemory) => offers.lack_memory(),
    }
}

fn push_applications_of(
    offers: &mut MoveOffers,
    sequent: &Sequent<'_>,
    draft: &Draft,
    companion: u32,
) {
    let matcher = Matcher {
        alloc: sequent.setting.alloc,
        fixed_below: 0,
        equations: &[],
        may_skip: 0,
    };
    let Some(node) = draft.node(companion) else {
        return;
    };
    let Judgement::Entail(antecedent, succedents) = &node.judgement else {
        return;
    };
    let [succedent] = succedents.heaps() else {
        return;
    };
    let Ok(matchings) = matcher.matchings(antecedent.spatial(), sequent.left.spatial()) else {
        return offers.lack_memory();
    };
    let lemma = (antecedent, succedent);
    for Matching { places, pairs, .. } in matchings {
        push_application(offers, sequent, &matcher, companion, lemma, &places, pairs);
    }
}

/// Cut by what each companion entails, the latest first; the atoms that its antecedent covers are cut away, and a link
/// proves that they entail it.
pub fn push_applications(offers: &mut MoveOffers, sequent: &Sequent<'_>, draft: &Draft) {
    if sequent.fuel == 0 {
        return;
    }
    let Ok(numbers) = companions(offers.alloc, draft) else {
        return offers.lack_memory();
    };
    for companion in &numbers {
        push_applications_of(offers, sequent, draft, *companion);
    }
}
