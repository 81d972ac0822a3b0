// Frames that are guessed: a segment without its last cell, and what is left beside a path.
use crate::search::leaves::{Leaf, replaced};
use crate::search::matches::Match;
use cyc_basics::memory::OutOfMemory;
use heap_formula::{Args, Spatial, Term};
use seek_shapes::{Shapes, args_of};
use std::alloc::Global;

/// A cell that is asked for, as a segment's last one.
#[derive(Clone, Copy)]
struct LastCell<'a> {
    address: Term,
    fields: &'a [Term],
}

/// The place of the argument that a segment equates with its root where it is empty.
fn place_of_end(shapes: &Shapes<'_>, predicate: u16) -> Option<usize> {
    match shapes.shape(predicate)?.base?.end {
        Term::Univ(place) => Some(place as usize),
        Term::Nil | Term::Exist(_) => None,
    }
}

/// The arguments with another one at a place.
fn with_argument(
    alloc: Global,
    args: &[Term],
    place: usize,
    term: Term,
) -> Result<Args, OutOfMemory> {
    let mut terms = Vec::from_slice(alloc, args)?;
    if let Some(entry) = terms.get_mut(place) {
        *entry = term;
    }
    Ok(args_of(&terms))
}

/// The segments that a segment may be without its last cell: it ends at that cell, and its own last cell, where it has
/// such an argument, is one of the cell's fields.
fn shorter(
    alloc: Global,
    shapes: &Shapes<'_>,
    predicate: u16,
    args: &Args,
    last: LastCell<'_>,
) -> Result<Vec<Spatial>, OutOfMemory> {
    let mut found = Vec::new(alloc);
    let (Some(end), Some(shape)) = (place_of_end(shapes, predicate), shapes.shape(predicate)) else {
        return Ok(found);
    };
    let ended = with_argument(alloc, args.as_slice(), end, last.address)?;
    let Some(far) = shape.far.first() else {
        found.push(Spatial::Pred(predicate, ended))?;
        return Ok(found);
    };
    for field in last.fields {
        let made = with_argument(alloc, ended.as_slice(), far.place, *field)?;
        found.push(Spatial::Pred(predicate, made))?;
    }
    Ok(found)
}

/// What may be left where the only atom without a partner is a cell, and one of the atoms that are left is a segment of
/// which it is the last cell.
pub fn without_last_cell(
    alloc: Global,
    shapes: &Shapes<'_>,
    matched: &Match,
) -> Result<Vec<Vec<Spatial>>, OutOfMemory> {
    let mut found = Vec::new(alloc);
    let [Spatial::Cell(address, fields)] = matched.open.as_slice() else {
        return Ok(found);
    };
    let mut values = Vec::new(alloc);
    for field in fields.as_slice() {
        values.push(matched.value(*field))?;
    }
    let last = LastCell {
        address: matched.value(*address),
        fields: &values,
    };
    for (place, atom) in matched.left.iter().enumerate() {
        push_shorter(alloc, shapes, &mut found, matched, place, atom, last)?;
    }
    Ok(found)
}

fn push_shorter(
    alloc: Global,
    shapes: &Shapes<'_>,
    found: &mut Vec<Vec<Spatial>>,
    matched: &Match,
    place: usize,
    atom: &Spatial,
    last: LastCell<'_>,
) -> Result<(), OutOfMemory> {
    let Spatial::Pred(predicate, args) = atom else {
        return Ok(());
    };
    for other in &shorter(alloc, shapes, *predicate, args, last)? {
        found.push(replaced(alloc, &matched.left, place, &[*other])?)?;
    }
    Ok(())
}

/// Where a path goes on behind an atom: at a segment's end, or at a cell's first field.
fn behind(shapes: &Shapes<'_>, atom: &Spatial) -> Option<Term> {
    match atom {
        Spatial::Cell(_, fields) => match fields.as_slice() {
            [first, ..] => Some(*first),
            [] => None,
        },
        Spatial::Pred(_, _) => shapes.edge(atom)?.end,
    }
}

/// The place of the atom with a root.
fn place_from(shapes: &Shapes<'_>, leaf: &Leaf, atoms: &[Spatial], term: Term) -> Option<usize> {
    for (place, atom) in atoms.iter().enumerate() {
        if let Some(root) = shapes.root(atom) {
            if leaf.known.class(root) == leaf.known.class(term) {
                return Some(place);
            }
        }
    }
    None
}

fn behind_place(shapes: &Shapes<'_>, atoms: &[Spatial], place: usize) -> Option<Term> {
    behind(shapes, atoms.get(place)?)
}

fn is_end(leaf: &Leaf, end: Option<Term>, term: Term) -> bool {
    match end {
        Some(end) => leaf.known.class(end) == leaf.known.class(term),
        None => false,
    }
}

/// The atoms without those on the path from a term, up to another.
fn beside_path(
    alloc: Global,
    shapes: &Shapes<'_>,
    leaf: &Leaf,
    atoms: &[Spatial],
    from: Term,
    to: Option<Term>,
) -> Result<Vec<Spatial>, OutOfMemory> {
    let mut left = Vec::from_slice(alloc, atoms)?;
    let mut at = Some(from);
    for _ in 0..atoms.len() {
        let Some(term) = at else {
            break;
        };
        if is_end(leaf, to, term) {
            break;
        }
        let Some(place) = place_from(shapes, leaf, &left, term) else {
            break;
        };
        at = behind_place(shapes, &left, place);
        left = replaced(alloc, &left, place, &[])?;
    }
    Ok(left)
}

/// What may be left where the only atom without a partner is a predicate atom that the path from its root makes up.
pub fn without_path(
    alloc: Global,
    shapes: &Shapes<'_>,
    leaf: &Leaf,
    matched: &Match,
) -> Result<Option<Vec<Spatial>>, OutOfMemory> {
    let [Spatial::Pred(predicate, args)] = matched.open.as_slice() else {
        return Ok(None);
    };
    let Some(edge) = shapes.edge(&Spatial::Pred(*predicate, *args)) else {
        return Ok(None);
    };
    let from = matched.value(edge.root);
    if let Term::Exist(_) = from {
        return Ok(None);
    }
    let to = match edge.end {
        Some(end) => Some(matched.value(end)),
        None => None,
    };
    let left = beside_path(alloc, shapes, leaf, &matched.left, from, to)?;
    Ok(Some(left))
}
