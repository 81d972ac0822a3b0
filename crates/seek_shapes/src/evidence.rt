// Atoms that show that a term is the address of a cell.
use crate::edges::{PlacedEdge, Shapes};
use crate::heaps::{differ, number_of};
use cyc_basics::memory::OutOfMemory;
use heap_formula::{Heap, Pure, Spatial, Term};
use std::alloc::Global;

/// The greatest number of walks that are begun for one question.
const MOST_WALKS: usize = 3000;

/// The places of atoms that show something, and a disequation of the antecedent that they need for it.
#[derive(Drop)]
pub struct Evidence {
    pub places: Vec<u32>,
    pub known: Option<Pure>,
}

/// An atom that other atoms show to be empty at one of its addresses, or to be contradictory where it is never empty.
#[derive(Drop)]
pub struct Emptied {
    pub place: u32,
    pub may_be_empty: bool,
    pub evidence: Vec<u32>,
}

/// A path of edges: its vertices, and the places of its atoms.
#[derive(Drop)]
struct Walk {
    vertices: Vec<Term>,
    used: Vec<u32>,
}

/// A look for walks that end in evidence.
#[derive(Clone, Copy)]
struct Walks<'a> {
    alloc: Global,
    heap: &'a Heap,
    edges: &'a [PlacedEdge],
    avoided: &'a [u32],
    may_end_at_nil: bool,
}

fn differing(heap: &Heap, vertices: &[Term], end: Term) -> Option<Pure> {
    for vertex in vertices {
        if differ(heap, *vertex, end) {
            return Some(Pure::Neq(*vertex, end));
        }
    }
    None
}

impl Walks<'_> {
    /// The disequation by which an atom is known to have a cell.
    fn known_of(&self, place: u32) -> Option<Pure> {
        for other in self.edges {
            if let (true, Some(end)) = (other.place == place, other.edge.end) {
                if differ(self.heap, other.edge.root, end) {
                    return Some(Pure::Neq(other.edge.root, end));
                }
            }
        }
        None
    }

    /// Whether a walk ends in evidence by an edge, and by which disequation.
    fn ending(&self, walk: &Walk, placed: &PlacedEdge) -> Option<Option<Pure>> {
        let Some(end) = placed.edge.end else {
            return Some(None);
        };
        if let Some(known) = self.known_of(placed.place) {
            return Some(Some(known));
        }
        if let Some(known) = differing(self.heap, &walk.vertices, end) {
            return Some(Some(known));
        }
        if self.may_end_at_nil && end == Term::Nil {
            return Some(None);
        }
        None
    }

    fn leads_on(&self, walk: &Walk, placed: &PlacedEdge) -> bool {
        walk.vertices.last() == Some(&placed.edge.root)
            && !self.avoided.contains(&placed.place)
            && !walk.used.contains(&placed.place)
    }

    fn push_longer(
        &self,
        longer: &mut Vec<Walk>,
        walk: &Walk,
        placed: &PlacedEdge,
    ) -> Result<(), OutOfMemory> {
        let Some(end) = placed.edge.end else {
            return Ok(());
        };
        if walk.vertices.contains(&end) {
            return Ok(());
        }
        let mut vertices = walk.vertices.clone()?;
        vertices.push(end)?;
        let mut used = walk.used.clone()?;
        used.push(placed.place)?;
        longer.push(Walk { vertices, used })?;
        Ok(())
    }

    fn evidence(
        &self,
        walk: &Walk,
        place: u32,
        known: Option<Pure>,
    ) -> Result<Evidence, OutOfMemory> {
        let mut places = walk.used.clone()?;
        places.push(place)?;
        Ok(Evidence { places, known })
    }

    /// Evidence by one more edge; else the walks by one more edge.
    fn go_on(&self, walk: &Walk, longer: &mut Vec<Walk>) -> Result<Option<Evidence>, OutOfMemory> {
        for placed in self.edges {
            if self.leads_on(walk, placed) {
                if let Some(known) = self.ending(walk, placed) {
                    let evidence = self.evidence(walk, placed.place, known)?;
                    return Ok(Some(evidence));
                }
                self.push_longer(longer, walk, placed)?;
            }
        }
        Ok(None)
    }

    fn first(&self, term: Term) -> Result<Vec<Walk>, OutOfMemory> {
        let vertices = vec![in self.alloc; term]?;
        let walk = Walk {
            vertices,
            used: Vec::new(self.alloc),
        };
        Ok(vec![in self.alloc; walk]?)
    }

    /// The shortest walk with evidence, by breadth.
    fn search(&self, term: Term) -> Result<Option<Evidence>, OutOfMemory> {
        let mut walks = self.first(term)?;
        for turn in 0..MOST_WALKS {
            let mut longer = Vec::new(self.alloc);
            let Some(walk) = walks.get(turn) else {
                return Ok(None);
            };
            let found = self.go_on(walk, &mut longer)?;
            if found.is_some() {
                return Ok(found);
            }
            walks.append(&mut longer)?;
        }
        Ok(None)
    }
}

impl Shapes<'_> {
    /// Atoms beside the avoided ones that show that a term is the address of a cell: a path from it of which some
    /// vertex and the last one differ, or whose last atom is never empty. With `or_nil` a path to `nil` will do, which
    /// shows that the term is `nil` or an address.
    pub fn allocated(
        &self,
        heap: &Heap,
        edges: &[PlacedEdge],
        term: Term,
        avoided: &[u32],
        or_nil: bool,
    ) -> Result<Option<Evidence>, OutOfMemory> {
        if term == Term::Nil {
            return Ok(self.nothing_needed(or_nil));
        }
        let walks = Walks {
            alloc: self.alloc,
            heap,
            edges,
            avoided,
            may_end_at_nil: or_nil,
        };
        walks.search(term)
    }

    fn nothing_needed(&self, or_nil: bool) -> Option<Evidence> {
        if !or_nil {
            return None;
        }
        Some(Evidence {
            places: Vec::new(self.alloc),
            known: None,
        })
    }

    /// The evidence that the atom of an edge is empty there.
    fn emptied_at(
        &self,
        heap: &Heap,
        edges: &[PlacedEdge],
        placed: &PlacedEdge,
    ) -> Result<Option<Vec<u32>>, OutOfMemory> {
        let root = placed.edge.root;
        if root == Term::Nil {
            return Ok(Some(Vec::new(self.alloc)));
        }
        if !has_other(edges, root, placed.place) {
            return Ok(None);
        }
        match self.allocated(heap, edges, root, &[placed.place], false)? {
            Some(evidence) => Ok(Some(evidence.places)),
            None => Ok(None),
        }
    }

    /// The atom whose emptiness needs the fewest others.
    pub fn emptied(&self, heap: &Heap) -> Result<Option<Emptied>, OutOfMemory> {
        let edges = self.placed_edges(heap.spatial())?;
        let mut best: Option<Emptied> = None;
        for placed in &edges {
            if let Some(evidence) = self.emptied_at(heap, &edges, placed)? {
                if is_shorter(&evidence, &best) {
                    best = Some(Emptied {
                        place: placed.place,
                        may_be_empty: placed.edge.end.is_some(),
                        evidence,
                    });
                }
            }
        }
        Ok(best)
    }

    /// Atoms that show that two terms differ: one is the address of a cell and the other `nil`; or the atom's end is
    /// not one of its addresses; or both are addresses, or one and the other that or `nil`, by atoms without a common
    /// one.
    pub fn apart(&self, heap: &Heap, t: Term, u: Term) -> Result<Option<Vec<u32>>, OutOfMemory> {
        let edges = self.placed_edges(heap.spatial())?;
        if u == Term::Nil {
            return places_of(self.allocated(heap, &edges, t, &[], false)?);
        }
        if t == Term::Nil {
            return places_of(self.allocated(heap, &edges, u, &[], false)?);
        }
        if let Some(place) = self.apart_by_one(heap, t, u)? {
            return Ok(Some(vec![in self.alloc; place]?));
        }
        let found = self.apart_by_two(heap, &edges, t, u)?;
        if found.is_some() {
            return Ok(found);
        }
        self.apart_by_two(heap, &edges, u, t)
    }

    fn apart_by_two(
        &self,
        heap: &Heap,
        edges: &[PlacedEdge],
        t: Term,
        u: Term,
    ) -> Result<Option<Vec<u32>>, OutOfMemory> {
        let Some(first) = self.allocated(heap, edges, t, &[], false)? else {
            return Ok(None);
        };
        let mut places = first.places;
        let Some(mut second) = self.allocated(heap, edges, u, &places, true)? else {
            return Ok(None);
        };
        places.append(&mut second.places)?;
        Ok(Some(places))
    }

    fn apart_by_one(&self, heap: &Heap, t: Term, u: Term) -> Result<Option<u32>, OutOfMemory> {
        for (place, atom) in heap.spatial().iter().enumerate() {
            let is_end = self.has_end_apart(atom, t, u)? || self.has_end_apart(atom, u, t)?;
            if is_end && self.is_solid(heap, atom)? && self.is_end_apart(atom) {
                return Ok(Some(number_of(place)));
            }
        }
        Ok(None)
    }

    /// Whether the first term is a further address of the atom, and the second its end.
    fn has_end_apart(&self, atom: &Spatial, address: Term, end: Term) -> Result<bool, OutOfMemory> {
        let edges = self.edges(atom)?;
        let Some((first, others)) = edges.split_first() else {
            return Ok(false);
        };
        if first.end != Some(end) {
            return Ok(false);
        }
        for other in others {
            if other.root == address {
                return Ok(true);
            }
        }
        Ok(false)
    }
}

fn places_of(found: Option<Evidence>) -> Result<Option<Vec<u32>>, OutOfMemory> {
    match found {
        Some(evidence) => Ok(Some(evidence.places)),
        None => Ok(None),
    }
}

fn is_shorter(evidence: &[u32], best: &Option<Emptied>) -> bool {
    match best {
        Some(best) => evidence.len() < best.evidence.len(),
        None => true,
    }
}

fn has_other(edges: &[PlacedEdge], root: Term, place: u32) -> bool {
    for other in edges {
        if other.place != place && other.edge.root == root {
            return true;
        }
    }
    false
}
