//! Symbolic unfoldings of an antecedent, for a free search for counter-models: equations, disequations and cells that
//! are left when each predicate atom is replaced by a case of its definition, until none is left. Either few unfoldings
//! are made, or those that base pairs lead to (Brotherston, Fuhs, Navarro Pérez and Gorogiannis 2014). Nothing is
//! promised of what is found.
#![tactic(auto)]

mod base_pairs;
mod choices;
mod derivations;
mod models;
mod sizes;
mod unfolder;
mod unfolding;
mod uses;

pub use choices::{Choice, Choices};
pub use cyc_basics::memory::OutOfMemory;
pub use derivations::Derivations;
pub use models::{Cell, Model};
pub use sizes::Sizes;
pub use unfolder::Unfolder;
pub use unfolding::{MOST_CELLS, SymbolicCell, Unfolding};
pub use uses::{OpenAtom, PredicateUse};
