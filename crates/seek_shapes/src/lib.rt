//! What definitions say of the shapes that their atoms describe, and what an antecedent says with them: at which term
//! an atom has a cell unless it is empty, to which term it leads, and which atoms show that another is empty or that
//! two terms differ. No predicate is known by its name.
#![tactic(auto)]

mod atoms;
mod classes;
mod contradictions;
mod edges;
mod evidence;
mod far;
mod heaps;
mod paths;
mod roots;
mod ways;

pub use atoms::{
    address, args_of, arguments, cell_place, first_existential, free_place, is_alike, mentions,
    shared_terms, shares_variable, terms_of, unifies,
};
pub use contradictions::{Forced, clashes, forced_atom, survivors};
pub use cyc_basics::memory::OutOfMemory;
pub use edges::{Edge, PlacedEdge, Shapes};
pub use evidence::{Emptied, Evidence};
pub use heaps::{
    body_of, copies_at, determined, differ, heap_of, is_false_equation, number_of, sides, value_in,
};
pub use paths::TwoPaths;
pub use roots::{Base, Far, Shape};
pub use ways::Out;
