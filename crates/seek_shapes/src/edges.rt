// Atoms as edges of a graph whose vertices are terms.
use crate::far::push_all_far;
use crate::heaps::{differ, number_of, value_in};
use crate::roots::{Base, Shape, root_of};
use cyc_basics::memory::OutOfMemory;
use heap_formula::{Heap, Spatial, Term};
use pred_defs::Defs;
use std::alloc::Global;

/// An address of an atom: the term at which it has a cell unless it is empty, and the term that equals it then. Without
/// an end the atom is never empty. So a list segment is an edge from its root to its end (after Cook, Haase, Ouaknine,
/// Parkinson and Worrell 2011).
#[derive(Clone, Copy)]
pub struct Edge {
    pub root: Term,
    pub end: Option<Term>,
}

/// An edge, and the place of its atom.
#[derive(Clone, Copy)]
pub struct PlacedEdge {
    pub place: u32,
    pub edge: Edge,
}

/// The shapes of all predicates.
#[derive(Drop)]
pub struct Shapes<'a> {
    pub alloc: Global,
    pub defs: &'a Defs,
    all: Vec<Option<Shape>>,
}

fn end_in(base: Option<Base>, terms: &[Term]) -> Option<Term> {
    match base {
        Some(base) => Some(value_in(terms, base.end)),
        None => None,
    }
}

fn value_of_end(end: Option<Term>, terms: &[Term]) -> Option<Term> {
    match end {
        Some(end) => Some(value_in(terms, end)),
        None => None,
    }
}

impl<'a> Shapes<'a> {
    /// Reads the shapes off the definitions.
    pub fn new(alloc: Global, defs: &'a Defs) -> Result<Shapes<'a>, OutOfMemory> {
        let mut all = Vec::new(alloc);
        for def in defs.as_slice() {
            let shape = match root_of(def) {
                Some((root, base)) => Some(Shape {
                    root,
                    base,
                    far: Vec::new(alloc),
                }),
                None => None,
            };
            all.push(shape)?;
        }
        push_all_far(alloc, defs, &mut all)?;
        Ok(Shapes { alloc, defs, all })
    }
}

impl Shapes<'_> {
    /// The shape of a predicate, if it has a root.
    pub fn shape(&self, predicate: u16) -> Option<&Shape> {
        match self.all.get(predicate as usize) {
            Some(Some(shape)) => Some(shape),
            _ => None,
        }
    }

    /// The edge from an atom's root.
    pub fn edge(&self, atom: &Spatial) -> Option<Edge> {
        match atom {
            Spatial::Cell(address, _) => Some(Edge {
                root: *address,
                end: None,
            }),
            Spatial::Pred(predicate, args) => {
                let shape = self.shape(*predicate)?;
                let terms = args.as_slice();
                let root = *terms.get(shape.root)?;
                let end = end_in(shape.base, terms);
                Some(Edge { root, end })
            }
        }
    }

    /// An atom's root.
    pub fn root(&self, atom: &Spatial) -> Option<Term> {
        match self.edge(atom) {
            Some(edge) => Some(edge.root),
            None => None,
        }
    }

    fn push_far_edges(&self, found: &mut Vec<Edge>, atom: &Spatial) -> Result<(), OutOfMemory> {
        let Spatial::Pred(predicate, args) = atom else {
            return Ok(());
        };
        let Some(shape) = self.shape(*predicate) else {
            return Ok(());
        };
        let terms = args.as_slice();
        for far in &shape.far {
            if let Some(root) = terms.get(far.place) {
                let end = value_of_end(far.end, terms);
                found.push(Edge { root: *root, end })?;
            }
        }
        Ok(())
    }

    /// All addresses of an atom, the root first.
    pub fn addresses(&self, atom: &Spatial) -> Result<Vec<Edge>, OutOfMemory> {
        let mut found = Vec::new(self.alloc);
        if let Some(edge) = self.edge(atom) {
            found.push(edge)?;
            self.push_far_edges(&mut found, atom)?;
        }
        Ok(found)
    }

    /// The same without addresses that are the root once more.
    pub fn edges(&self, atom: &Spatial) -> Result<Vec<Edge>, OutOfMemory> {
        let all = self.addresses(atom)?;
        let mut found: Vec<Edge> = Vec::new(self.alloc);
        let root = self.root(atom);
        for edge in &all {
            if found.is_empty() || Some(edge.root) != root {
                found.push(*edge)?;
            }
        }
        Ok(found)
    }

    fn push_placed(
        &self,
        found: &mut Vec<PlacedEdge>,
        place: u32,
        atom: &Spatial,
    ) -> Result<(), OutOfMemory> {
        for edge in &self.edges(atom)? {
            found.push(PlacedEdge { place, edge: *edge })?;
        }
        Ok(())
    }

    /// The edges of all atoms.
    pub fn placed_edges(&self, atoms: &[Spatial]) -> Result<Vec<PlacedEdge>, OutOfMemory> {
        let mut found = Vec::new(self.alloc);
        for (place, atom) in atoms.iter().enumerate() {
            self.push_placed(&mut found, number_of(place), atom)?;
        }
        Ok(found)
    }

    /// Whether the atom is known to have a cell.
    pub fn is_solid(&self, heap: &Heap, atom: &Spatial) -> Result<bool, OutOfMemory> {
        for edge in &self.edges(atom)? {
            match edge.end {
                None => return Ok(true),
                Some(end) if differ(heap, edge.root, end) => return Ok(true),
                Some(_) => {}
            }
        }
        Ok(false)
    }
}
