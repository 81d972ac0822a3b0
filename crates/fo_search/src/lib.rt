//! The search for a cyclic proof of a problem in first-order logic with inductive definitions (Brotherston and Simpson
//! 2011), by iterative deepening.
#![tactic(auto)]

pub mod calculus;
pub mod laws;
mod logic;
pub mod moves;
mod offering;
mod prover;
mod reasons;

pub use cyc_basics::memory::OutOfMemory;
pub use prover::{FoProved, prove_fo};
