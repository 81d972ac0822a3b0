// Two paths from one term to another.
use crate::edges::{PlacedEdge, Shapes};
use cyc_basics::memory::OutOfMemory;
use heap_formula::{Heap, Term};
use std::alloc::Global;

/// The greatest number of ends that are followed from one edge.
const MOST_ENDS: usize = 64;

/// Two terms between which two paths lead that share no atom, and the atoms of both. One of the paths is empty then, so
/// the terms are equal.
#[derive(Drop)]
pub struct TwoPaths {
    pub from: Term,
    pub to: Term,
    pub places: Vec<u32>,
}

/// A path to a term: the places of its atoms.
#[derive(Drop)]
struct Path {
    end: Term,
    places: Vec<u32>,
}

fn path_to<'a>(paths: &'a [Path], end: Term) -> Option<&'a Path> {
    for path in paths {
        if path.end == end {
            return Some(path);
        }
    }
    None
}

fn share(places: &[u32], others: &[u32]) -> bool {
    for place in places {
        if others.contains(place) {
            return true;
        }
    }
    false
}

/// The path with one more edge, if that leads from its end to a new term that is not where it began.
fn longer_by(
    path: &Path,
    placed: &PlacedEdge,
    from: Term,
    paths: &[Path],
) -> Result<Option<Path>, OutOfMemory> {
    let Some(end) = placed.edge.end else {
        return Ok(None);
    };
    let is_new = end != from && path_to(paths, end).is_none();
    if placed.edge.root != path.end || !is_new || path.places.contains(&placed.place) {
        return Ok(None);
    }
    let mut places = path.places.clone()?;
    places.push(placed.place)?;
    Ok(Some(Path { end, places }))
}

/// The paths with one more edge than one of them.
fn longer_paths(
    alloc: Global,
    edges: &[PlacedEdge],
    path: &Path,
    from: Term,
    paths: &[Path],
) -> Result<Vec<Path>, OutOfMemory> {
    let mut longer: Vec<Path> = Vec::new(alloc);
    for placed in edges {
        if let Some(next) = longer_by(path, placed, from, paths)? {
            if path_to(&longer, next.end).is_none() {
                longer.push(next)?;
            }
        }
    }
    Ok(longer)
}

fn first_paths(alloc: Global, from: Term, first: &PlacedEdge) -> Result<Vec<Path>, OutOfMemory> {
    let mut paths = Vec::new(alloc);
    if let Some(end) = first.edge.end {
        if end != from {
            let places = vec![in alloc; first.place]?;
            paths.push(Path { end, places })?;
        }
    }
    Ok(paths)
}

/// Shortest paths that begin with an edge and do not come back to where they began.
fn reached(
    alloc: Global,
    edges: &[PlacedEdge],
    from: Term,
    first: &PlacedEdge,
) -> Result<Vec<Path>, OutOfMemory> {
    let mut paths = first_paths(alloc, from, first)?;
    for turn in 0..MOST_ENDS {
        let Some(path) = paths.get(turn) else {
            break;
        };
        let mut longer = longer_paths(alloc, edges, path, from, &paths)?;
        paths.append(&mut longer)?;
    }
    Ok(paths)
}

/// Keeps the pair of paths with the fewest atoms.
fn keep_shortest(
    best: &mut Option<TwoPaths>,
    from: Term,
    first: &Path,
    second: &Path,
) -> Result<(), OutOfMemory> {
    let count = first.places.len().saturating_add(second.places.len());
    let is_shorter = match best {
        Some(best) => count < best.places.len(),
        None => true,
    };
    if is_shorter && !share(&first.places, &second.places) {
        let mut places = first.places.clone()?;
        places.extend_from_slice(&second.places)?;
        let to = first.end;
        *best = Some(TwoPaths { from, to, places });
    }
    Ok(())
}

fn look_for_meeting(
    best: &mut Option<TwoPaths>,
    from: Term,
    firsts: &[Path],
    seconds: &[Path],
) -> Result<(), OutOfMemory> {
    for first in firsts {
        if let Some(second) = path_to(seconds, first.end) {
            keep_shortest(best, from, first, second)?;
        }
    }
    Ok(())
}

/// Looks at the edges of other atoms from the same term.
fn look_beside(
    alloc: Global,
    best: &mut Option<TwoPaths>,
    edges: &[PlacedEdge],
    first: &PlacedEdge,
    later: &[PlacedEdge],
) -> Result<(), OutOfMemory> {
    let from = first.edge.root;
    for second in later {
        if second.edge.root == from && second.place != first.place {
            let firsts = reached(alloc, edges, from, first)?;
            let seconds = reached(alloc, edges, from, second)?;
            look_for_meeting(best, from, &firsts, &seconds)?;
        }
    }
    Ok(())
}

impl Shapes<'_> {
    /// Two paths of the fewest atoms, if there are such.
    pub fn two_paths(&self, heap: &Heap) -> Result<Option<TwoPaths>, OutOfMemory> {
        let edges = self.placed_edges(heap.spatial())?;
        let mut best = None;
        for (number, first) in edges.iter().enumerate() {
            look_beside(self.alloc, &mut best, &edges, first, &edges[number + 1..])?;
        }
        Ok(best)
    }
}
