//! The proofs of a logic as tableaux, for a search: what its rules and links make of a goal, and the nodes of a proof
//! from those of a derivation. Whatever goals are offered, what a search finds is a proof that a check accepts
//! (Brotherston, Gorogiannis and Petersen 2012).

mod effects;
mod laws;
mod nodes;
mod searching;

pub use cyc_basics::memory::OutOfMemory;
pub use effects::effect_of;
pub use laws::found_is_proof;
pub use nodes::nodes_made;
pub use searching::{Proved, search_proof};
