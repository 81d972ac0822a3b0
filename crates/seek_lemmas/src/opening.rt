// An entailment with existentials: those of cells are read off the left side, the others guessed.
use crate::attempts::{closed, closed_by, only};
use crate::purposes::{Goal, Moved, Purpose, is_plain};
use heap_formula::{Heap, Rule, Spatial, Term};
use rule_table::is_universal;
use seek_plans::divide;
use seek_shapes::{address, arguments, determined, first_existential, number_of};
use seek_trees::{Stop, Work};

/// The most existentials that are read off.
const MOST_RULES: u32 = 64;

/// The first existential field of a wanted cell, by a cell with as many fields.
fn by_fields(wanted: &[Term], fields: &[Term]) -> Option<(u16, Term)> {
    if wanted.len() != fields.len() {
        return None;
    }
    first_existential(wanted, fields)
}

fn by_cell(left: &Heap, term: Term, wanted: &[Term]) -> Option<(u16, Term)> {
    for atom in left.spatial() {
        if address(atom) == Some(term) {
            let found = by_fields(wanted, arguments(atom));
            if found.is_some() {
                return found;
            }
        }
    }
    None
}

/// An existential that an equation or a cell determines.
fn read_off(left: &Heap, right: &Heap) -> Option<(u16, Term)> {
    let found = determined(right.pure());
    if found.is_some() {
        return found;
    }
    for atom in right.spatial() {
        if let Spatial::Cell(term, args) = atom {
            if is_universal(*term) {
                let found = by_cell(left, *term, args.as_slice());
                if found.is_some() {
                    return found;
                }
            }
        }
    }
    None
}

/// Saturates, and reads off the existentials that are determined.
pub fn prepare_open(work: &mut Work<'_>, node: u32, fuel: i32) -> Moved {
    let alloc = work.setting.alloc;
    let mut at = node;
    for _ in 0..MOST_RULES {
        let Some(next) = work.saturate(at)? else {
            return closed(alloc);
        };
        if is_plain(work.disjuncts(next)) {
            let is_ready = false;
            return only(alloc, next, Purpose::Whole { fuel, is_ready });
        }
        let Some((variable, term)) = read_off(work.left(next), work.right(next)) else {
            let is_ready = true;
            return only(alloc, next, Purpose::Open { fuel, is_ready });
        };
        at = work.one(next, &Rule::Instantiate(variable, term))?;
    }
    Err(Stop::NoWay)
}

fn has_existential(terms: &[Term]) -> bool {
    for term in terms {
        if matches!(term, Term::Exist(_)) {
            return true;
        }
    }
    false
}

/// The predicate atom of the left side at the address of a wanted cell with existential fields.
fn covering(work: &Work<'_>, node: u32) -> Option<u32> {
    for wanted in work.right(node).spatial() {
        if let Spatial::Cell(term, fields) = wanted {
            if is_universal(*term) && has_existential(fields.as_slice()) {
                let place = predicate_at(work, node, *term);
                if place.is_some() {
                    return place;
                }
            }
        }
    }
    None
}

fn predicate_at(work: &Work<'_>, node: u32, term: Term) -> Option<u32> {
    for (place, atom) in work.left(node).spatial().iter().enumerate() {
        if matches!(atom, Spatial::Pred(_, _)) && work.shapes.root(atom) == Some(term) {
            return Some(number_of(place));
        }
    }
    None
}

/// Unfolds the atom that covers a wanted cell.
fn uncover(work: &mut Work<'_>, node: u32, fuel: i32, place: u32) -> Moved {
    let mut open = Vec::new(work.setting.alloc);
    for premise in work.step(node, &Rule::Unfold(place))? {
        if let Some(left) = work.normal(premise)? {
            open.push(left)?;
        }
    }
    let fuel = if open.len() > 1 {
        fuel.saturating_sub(1)
    } else {
        fuel
    };
    let mut goals = Vec::new(work.setting.alloc);
    for node in open {
        let is_ready = false;
        let purpose = Purpose::Open { fuel, is_ready };
        goals.push(Goal { node, purpose })?;
    }
    Ok(Some(goals))
}

fn first_unknown(right: &Heap) -> Option<u16> {
    for atom in right.spatial() {
        if let Some(Term::Exist(variable)) = address(atom) {
            return Some(variable);
        }
        for term in arguments(atom) {
            if let Term::Exist(variable) = *term {
                return Some(variable);
            }
        }
    }
    None
}

fn push_new(terms: &mut Vec<Term>, more: &[Term]) -> Result<(), Stop> {
    for term in more {
        if !terms.contains(term) {
            terms.push(*term)?;
        }
    }
    Ok(())
}

/// The terms of the left side's spatial atoms, each once.
fn left_terms(work: &Work<'_>, node: u32) -> Result<Vec<Term>, Stop> {
    let mut terms = Vec::new(work.setting.alloc);
    for atom in work.left(node).spatial() {
        if let Some(term) = address(atom) {
            push_new(&mut terms, &[term])?;
        }
        push_new(&mut terms, arguments(atom))?;
    }
    Ok(terms)
}

/// Guesses one existential.
fn guess(work: &mut Work<'_>, node: u32, fuel: i32, number: usize) -> Moved {
    let Some(variable) = first_unknown(work.right(node)) else {
        return Ok(None);
    };
    let terms = left_terms(work, node)?;
    let Some(term) = terms.get(number) else {
        return Ok(None);
    };
    let next = work.one(node, &Rule::Instantiate(variable, *term))?;
    let is_ready = false;
    only(work.setting.alloc, next, Purpose::Open { fuel, is_ready })
}

/// The moves: by parts; Unfold of an atom that covers a wanted cell; a guess.
pub fn open(work: &mut Work<'_>, node: u32, fuel: i32, number: u32) -> Moved {
    let alloc = work.setting.alloc;
    if number == 0 {
        if fuel < 0 {
            return Err(Stop::NoWay);
        }
        let outcome = divide(work, node);
        return closed_by(alloc, outcome);
    }
    if let Some(place) = covering(work, node) {
        return if number == 1 {
            uncover(work, node, fuel, place)
        } else {
            Ok(None)
        };
    }
    guess(work, node, fuel, (number - 1) as usize)
}
