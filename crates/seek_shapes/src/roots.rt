// The parameter at which a predicate's atoms have a cell.
use crate::atoms::cell_place;
use crate::heaps::number_of;
use heap_formula::{Def, Heap, Pure, Term};

/// The one case of a predicate that holds of the empty heap alone, and the term that it equates with the root.
#[derive(Clone, Copy)]
pub struct Base {
    pub case: u32,
    pub end: Term,
}

/// A parameter that is the address of a cell where the atom is not empty, and what it equals where it is; without an
/// end the atom is never empty.
#[derive(Clone, Copy)]
pub struct Far {
    pub place: usize,
    pub end: Option<Term>,
}

/// What the cases of a predicate say of its addresses: the root, at which each case with spatial atoms has a cell; the
/// empty case, if there is one; and further addresses, as the last cell of a doubly linked segment.
#[derive(Drop)]
pub struct Shape {
    pub root: usize,
    pub base: Option<Base>,
    pub far: Vec<Far>,
}

/// What a case says of a parameter.
enum Look {
    Cell,
    Empty(Base),
    Neither,
}

fn other_side(atom: Pure, term: Term) -> Option<Term> {
    match atom {
        Pure::Eq(t, u) if t == term => Some(u),
        Pure::Eq(t, u) if u == term => Some(t),
        _ => None,
    }
}

/// The term that an equation among the atoms gives for a term, unless that is an existential.
pub fn equal_term(atoms: &[Pure], term: Term) -> Option<Term> {
    for atom in atoms {
        match other_side(*atom, term) {
            None | Some(Term::Exist(_)) => {}
            found => return found,
        }
    }
    None
}

fn look_at(case: &Heap, number: u32, root: Term) -> Look {
    if case.spatial().is_empty() {
        match equal_term(case.pure(), root) {
            Some(end) => Look::Empty(Base { case: number, end }),
            None => Look::Neither,
        }
    } else if cell_place(case.spatial(), root).is_some() {
        Look::Cell
    } else {
        Look::Neither
    }
}

/// The empty case, if there is one, where the parameter is a root; else nothing.
fn base_at(cases: &[Heap], root: Term) -> Option<Option<Base>> {
    let mut base = None;
    for (number, case) in cases.iter().enumerate() {
        match look_at(case, number_of(number), root) {
            Look::Cell => {}
            Look::Empty(_) if base.is_some() => return None,
            Look::Empty(found) => base = Some(found),
            Look::Neither => return None,
        }
    }
    Some(base)
}

/// The root of a predicate and its empty case: the first parameter that can be the root.
pub fn root_of(def: &Def) -> Option<(usize, Option<Base>)> {
    for place in 0..8u16 {
        if u32::from(place) >= def.arity {
            return None;
        }
        if let Some(base) = base_at(def.cases.heaps(), Term::Univ(place)) {
            return Some((place as usize, base));
        }
    }
    None
}
