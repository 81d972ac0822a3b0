// The joins of a plan, one after the other.
use crate::guards::own_places;
use crate::joining::make_join;
use crate::plans::Join;
use heap_formula::{Spatial, Term};
use seek_shapes::differ;
use seek_trees::{Stop, Work};

/// The pairs of terms that have to differ: what the made atom asks for, and its root and end where its root is another
/// one's end, so that this stays known as an address.
fn wanted(work: &Work<'_>, made: &Spatial, ends: &[Term]) -> Result<Vec<(Term, Term)>, Stop> {
    let mut pairs = work.shapes.asks(made)?;
    if let (Some(root), Some(end)) = (work.shapes.root(made), work.shapes.target(made)?) {
        if ends.contains(&root) {
            pairs.push((root, end))?;
        }
    }
    Ok(pairs)
}

fn ends(work: &Work<'_>, joins: &[Join]) -> Result<Vec<Term>, Stop> {
    let mut ends = Vec::new(work.setting.alloc);
    for join in joins {
        if let Some(end) = work.shapes.target(&join.made)? {
            ends.push(end)?;
        }
    }
    Ok(ends)
}

fn show_wanted(work: &mut Work<'_>, node: u32, join: &Join, ends: &[Term]) -> Result<u32, Stop> {
    let mut at = node;
    if work.shapes.root(&join.made).is_none() || work.shapes.target(&join.made)?.is_none() {
        return Ok(at);
    }
    for (t, u) in wanted(work, &join.made, ends)? {
        if t != u && !differ(work.left(at), t, u) {
            if let Some(next) = work.apart_by_atoms(at, t, u)? {
                at = next;
            }
        }
    }
    Ok(at)
}

/// Puts what later joins want into the pure part, while the atoms are there that show it.
fn show_all_wanted(work: &mut Work<'_>, node: u32, joins: &[Join]) -> Result<u32, Stop> {
    let ends = ends(work, joins)?;
    let mut at = node;
    for join in joins {
        at = show_wanted(work, at, join, &ends)?;
    }
    Ok(at)
}

/// Splits on the ends of a join that begins with a cell, where one branch is contradictory, and makes it.
fn join_apart(work: &mut Work<'_>, node: u32, join: &Join) -> Result<u32, Stop> {
    let [Spatial::Cell(root, _), ..] = join.parts.as_slice() else {
        return Err(Stop::NoWay);
    };
    let root = *root;
    match work.shapes.target(&join.made)? {
        Some(end) if end != root && !differ(work.left(node), root, end) => {
            match work.apart(node, root, end)? {
                Some(next) => make_join(work, next, join),
                None => Err(Stop::NoWay),
            }
        }
        _ => Err(Stop::NoWay),
    }
}

fn try_join(work: &mut Work<'_>, node: u32, join: &Join) -> Result<Option<u32>, Stop> {
    if own_places(work, node, &join.parts).is_err() {
        return Ok(None);
    }
    let kept = work.tree.len();
    let outcome = make_join(work, node, join);
    let found = work.or_undo(node, kept, outcome)?;
    if found.is_some() {
        return Ok(found);
    }
    let outcome = join_apart(work, node, join);
    work.or_undo(node, kept, outcome)
}

/// Makes the first join that can be made: its place, and the node behind it.
fn make_one(work: &mut Work<'_>, node: u32, joins: &[Join]) -> Result<(usize, u32), Stop> {
    for (place, join) in joins.iter().enumerate() {
        if let Some(next) = try_join(work, node, join)? {
            return Ok((place, next));
        }
    }
    Err(Stop::NoWay)
}

/// Makes all joins of a plan; one whose parts another needs as a guard comes later.
pub fn make_joins(work: &mut Work<'_>, node: u32, joins: Vec<Join>) -> Result<u32, Stop> {
    let mut at = show_all_wanted(work, node, &joins)?;
    let mut left = joins;
    for _ in 0..left.len() {
        let (place, next) = make_one(work, at, &left)?;
        if place < left.len() {
            drop(left.remove(place));
        }
        at = next;
    }
    Ok(at)
}
