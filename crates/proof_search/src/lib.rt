//! The search for a cyclic proof of a problem's goal (Brotherston, Gorogiannis and Petersen 2012), by iterative
//! deepening.
#![tactic(auto)]

pub mod calculus;
pub mod files;
mod logic;
mod offering;
mod prover;
mod rules;

pub use cyc_basics::memory::OutOfMemory;
pub use offering::offers;
pub use prover::{Proved, prove};
pub use search_moves::Offers;
