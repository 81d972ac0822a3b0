//! The first flaw of a text of first-order logic that the grammar has: what is ill-formed or passes a limit, and at
//! which token.

mod atom_walk;
mod flaw;
mod known;
mod ninth;
mod node_walk;
mod reason_walk;
mod term_walk;
mod text_walk;
mod theory_walk;

pub use atom_walk::{walk_atom, walk_atoms};
pub use flaw::{Reached, Scope, Stop};
pub use known::Names;
pub use term_walk::walk_term;
pub use text_walk::{file_flaw, problem_flaw};
