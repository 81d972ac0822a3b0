// The addresses of atoms that are asked for.
use crate::search::leaves::Leaf;
use crate::search::matches::Match;
use cyc_basics::memory::OutOfMemory;
use heap_formula::{Spatial, Term};
use seek_shapes::Shapes;

/// The address at which an atom is asked for; none where that is open.
pub fn wanted_address(shapes: &Shapes<'_>, matched: &Match, atom: &Spatial) -> Option<Term> {
    match matched.value(shapes.root(atom)?) {
        Term::Exist(_) => None,
        term => Some(term),
    }
}

/// The first atom that is asked for at a known address; else the first one.
pub fn next_open(shapes: &Shapes<'_>, matched: &Match) -> usize {
    for (place, atom) in matched.open.iter().enumerate() {
        if wanted_address(shapes, matched, atom).is_some() {
            return place;
        }
    }
    0
}

fn has_root(shapes: &Shapes<'_>, leaf: &Leaf, atom: &Spatial, term: Term) -> bool {
    match shapes.root(atom) {
        Some(root) => leaf.known.class(root) == leaf.known.class(term),
        None => false,
    }
}

/// Whether a predicate atom has an address: its root, or another.
fn has_address(
    shapes: &Shapes<'_>,
    leaf: &Leaf,
    atom: &Spatial,
    term: Term,
) -> Result<bool, OutOfMemory> {
    let Spatial::Pred(_, _) = atom else {
        return Ok(false);
    };
    for edge in &shapes.edges(atom)? {
        if leaf.known.class(edge.root) == leaf.known.class(term) {
            return Ok(true);
        }
    }
    Ok(false)
}

/// The place of a leaf's predicate atom with an address, the roots first.
fn place_at(shapes: &Shapes<'_>, leaf: &Leaf, term: Term) -> Result<Option<usize>, OutOfMemory> {
    let mut found = None;
    for (place, atom) in leaf.atoms.iter().enumerate() {
        if has_address(shapes, leaf, atom, term)? {
            if has_root(shapes, leaf, atom, term) {
                return Ok(Some(place));
            }
            if found.is_none() {
                found = Some(place);
            }
        }
    }
    Ok(found)
}

/// The place of the predicate atom that has to be replaced by its cases for what is asked for.
pub fn place_to_unfold(
    shapes: &Shapes<'_>,
    leaf: &Leaf,
    matched: &Match,
) -> Result<Option<usize>, OutOfMemory> {
    for atom in &matched.open {
        if let Some(term) = wanted_address(shapes, matched, atom) {
            let place = place_at(shapes, leaf, term)?;
            if place.is_some() {
                return Ok(place);
            }
        }
    }
    Ok(None)
}
