// The search for partners of all atoms that are asked for.
use crate::search::leaves::Leaf;
use crate::search::matches::Match;
use crate::search::wishes::next_open;
use cyc_basics::memory::OutOfMemory;
use heap_formula::{Heap, Spatial};
use pred_defs::Defs;
use seek_shapes::Shapes;
use std::alloc::Global;

/// The most matches that are looked at for a leaf.
const MOST_MATCHES: u32 = 400;

/// The most atoms that are asked for and replaced by cases.
const MOST_FOLDS: u32 = 8;

/// What the search for partners ends with: all have one, or the match in which the fewest have none.
#[derive(Drop)]
pub enum Matched {
    Whole(Match),
    Part(Match),
}

/// The matches that go on from one, the best one last.
fn longer(
    alloc: Global,
    defs: &Defs,
    shapes: &Shapes<'_>,
    leaf: &Leaf,
    matched: &Match,
) -> Result<Vec<Match>, OutOfMemory> {
    let open = next_open(shapes, matched);
    let mut found = folded(alloc, defs, leaf, matched, open)?;
    let mut partners = joined(alloc, leaf, matched, open)?;
    partners.reverse();
    partners.sort_by_key(|next| u32::MAX - next.given)?;
    found.append(&mut partners)?;
    Ok(found)
}

/// The matches in which an atom has a partner.
fn joined(
    alloc: Global,
    leaf: &Leaf,
    matched: &Match,
    open: usize,
) -> Result<Vec<Match>, OutOfMemory> {
    let mut found = Vec::new(alloc);
    for left in 0..matched.left.len() {
        if let Some(next) = matched.joined(alloc, &leaf.known, open, left)? {
            found.push(next)?;
        }
    }
    Ok(found)
}

/// The matches in which an atom is replaced by a case.
fn folded(
    alloc: Global,
    defs: &Defs,
    leaf: &Leaf,
    matched: &Match,
    open: usize,
) -> Result<Vec<Match>, OutOfMemory> {
    let mut found = Vec::new(alloc);
    let Some(Spatial::Pred(predicate, _)) = matched.open.get(open) else {
        return Ok(found);
    };
    if matched.folds >= MOST_FOLDS {
        return Ok(found);
    }
    for case in 0..defs.cases(*predicate).len() {
        if let Some(next) = matched.folded(alloc, defs, &leaf.known, open, case)? {
            found.push(next)?;
        }
    }
    Ok(found)
}

fn is_closer(matched: &Match, best: &Option<Match>) -> bool {
    match best {
        Some(best) => matched.open.len() < best.open.len(),
        None => true,
    }
}

/// Looks for partners in a leaf of all atoms that are asked for, depth first.
pub fn match_in(
    alloc: Global,
    defs: &Defs,
    shapes: &Shapes<'_>,
    leaf: &Leaf,
    wanted: &Heap,
) -> Result<Matched, OutOfMemory> {
    let first = Match::first(alloc, leaf, wanted)?;
    let mut stack = vec![in alloc; first.clone()?]?;
    let mut best: Option<Match> = None;
    for _ in 0..MOST_MATCHES {
        let Some(matched) = stack.pop() else {
            break;
        };
        if matched.open.is_empty() {
            return Ok(Matched::Whole(matched));
        }
        let mut next = longer(alloc, defs, shapes, leaf, &matched)?;
        stack.append(&mut next)?;
        if is_closer(&matched, &best) {
            best = Some(matched);
        }
    }
    Ok(Matched::Part(best.unwrap_or(first)))
}
