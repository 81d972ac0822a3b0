//! Partial derivations that are extended and taken back in place, in any logic of rules and links back: the moves of
//! the search for cyclic proofs (Brotherston, Gorogiannis and Petersen 2012).
#![tactic(auto)]

mod derivation;
pub mod found;
mod logic;
mod moves;
mod rules;
pub mod search;
pub mod tableaux;

pub use cyc_basics::memory::OutOfMemory;
pub use derivation::Derivation;
pub use logic::{Effect, Logic, Strategy};
pub use rules::NextRules;
