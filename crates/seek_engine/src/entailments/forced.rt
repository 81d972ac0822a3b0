// Moves that lose nothing, so that no others are offered beside them.
use crate::entailments::offers::{MoveOffers, companions};
use crate::entailments::sequents::Sequent;
use crate::{Aim, Draft, Move, Setting};
use cyc_basics::memory::OutOfMemory;
use heap_formula::{Heap, Judgement, Pure, Rule, Side, Spatial, Term};
use rule_table::{equated, follows, is_universal_pure};
use seek_shapes::{first_existential, unifies};

/// What a look at an entailment says.
pub enum Sight {
    /// This rule is to be tried, and no other.
    Go(Rule),
    /// There is no proof.
    Dead,
    /// Nothing.
    Open,
}

/// Rewrite by the first equation of an antecedent, from `nil` only where the other side is `nil` too.
pub fn first_equation(heap: &Heap) -> Option<Rule> {
    for (k, atom) in heap.pure().iter().enumerate() {
        if let Pure::Eq(t, u) = *atom {
            let side = match (t, u) {
                (Term::Nil, Term::Univ(_) | Term::Exist(_)) => Side::Right,
                _ => Side::Left,
            };
            return Some(Rule::Rewrite(k as u32, side));
        }
    }
    None
}

fn push_done_and_links(offers: &mut MoveOffers, draft: &Draft, aim: Aim) {
    offers.push_rule(Rule::Done, aim);
    let Ok(numbers) = companions(offers.alloc, draft) else {
        return offers.lack_memory();
    };
    for companion in &numbers {
        offers.push(Move::Link(*companion));
    }
}

/// Absurd, Rewrite by the first equation; else Done and links.
pub fn first_stage(
    offers: &mut MoveOffers,
    setting: &Setting<'_>,
    draft: &Draft,
    judgement: &Judgement,
    left: &Heap,
    aim: Aim,
) {
    match setting.is_applicable(judgement, &Rule::Absurd) {
        Ok(true) => offers.push_alone(Rule::Absurd, aim),
        Ok(false) => match first_equation(left) {
            Some(rule) => offers.push_alone(rule, aim),
            None => push_done_and_links(offers, draft, aim),
        },
        Err(OutOfMemory) => offers.lack_memory(),
    }
}

/// Whether the two terms are the sides of the atom, up to equations of the list.
fn has_sides(equations: &[Pure], atom: Pure, t: Term, u: Term) -> bool {
    let (Pure::Eq(v, w) | Pure::Neq(v, w)) = atom;
    equated(equations, t, v) && equated(equations, u, w)
        || equated(equations, t, w) && equated(equations, u, v)
}

fn distinct_with(heap: &Heap, i: u32, t: Term, atom: Pure, equations: &[Pure]) -> Option<Rule> {
    for (k, other) in heap.spatial().iter().enumerate() {
        if let Spatial::Cell(u, _) = other {
            let u = if k as u32 == i { Term::Nil } else { *u };
            if has_sides(equations, atom, t, u) {
                return Some(Rule::Distinct(i, k as u32));
            }
        }
    }
    None
}

/// The Distinct that gives a disequation, up to equations of the list, if cells of the heap give it.
pub fn distinct_for(heap: &Heap, atom: Pure, equations: &[Pure]) -> Option<Rule> {
    if let Pure::Eq(_, _) = atom {
        return None;
    }
    for (i, cell) in heap.spatial().iter().enumerate() {
        if let Spatial::Cell(t, _) = cell {
            if let Some(rule) = distinct_with(heap, i as u32, *t, atom, equations) {
                return Some(rule);
            }
        }
    }
    None
}

fn look_at_universal(left: &Heap, k: u32, atom: Pure) -> Sight {
    if follows(left.pure(), atom) {
        return Sight::Go(Rule::PureRight(k));
    }
    if let Pure::Neq(t, u) = atom {
        if t == u {
            return Sight::Dead;
        }
    }
    match distinct_for(left, atom, &[]) {
        Some(rule) => Sight::Go(rule),
        None => Sight::Open,
    }
}

fn look_at_pure(left: &Heap, k: u32, atom: Pure) -> Sight {
    if is_universal_pure(atom) {
        return look_at_universal(left, k, atom);
    }
    match atom {
        Pure::Eq(Term::Exist(_), Term::Exist(_)) => Sight::Open,
        Pure::Eq(Term::Exist(v), term) | Pure::Eq(term, Term::Exist(v)) => {
            Sight::Go(Rule::Instantiate(v, term))
        }
        _ => Sight::Open,
    }
}

fn look_at_pures(left: &Heap, right: &Heap) -> Sight {
    for (k, atom) in right.pure().iter().enumerate() {
        match look_at_pure(left, k as u32, *atom) {
            Sight::Open => {}
            look => return look,
        }
    }
    Sight::Open
}

/// Cells with one address: their fields have to be the same.
fn look_at_cells(is_shy: bool, i: u32, fields: &[Term], k: u32, wanted: &[Term]) -> Sight {
    if !unifies(fields, wanted) {
        return Sight::Dead;
    }
    if let Some((variable, field)) = first_existential(wanted, fields) {
        return Sight::Go(Rule::Instantiate(variable, field));
    }
    if is_shy {
        Sight::Open
    } else {
        Sight::Go(Rule::Frame(i, k))
    }
}

fn look_at_cell(is_shy: bool, left: &Heap, k: u32, address: Term, wanted: &[Term]) -> Sight {
    for (i, atom) in left.spatial().iter().enumerate() {
        if let Spatial::Cell(t, fields) = atom {
            if *t == address {
                return look_at_cells(is_shy, i as u32, fields.as_slice(), k, wanted);
            }
        }
    }
    Sight::Open
}

/// What a look at the succedent says. A shy search does not frame cells by itself.
pub fn look_at(sequent: &Sequent<'_>, is_shy: bool) -> Sight {
    match look_at_pures(sequent.left, sequent.right) {
        Sight::Open => {}
        look => return look,
    }
    for (k, atom) in sequent.right.spatial().iter().enumerate() {
        if let Spatial::Cell(address, wanted) = atom {
            match look_at_cell(is_shy, sequent.left, k as u32, *address, wanted.as_slice()) {
                Sight::Open => {}
                look => return look,
            }
        }
    }
    Sight::Open
}
