//! Logics whose proofs are finite graphs with links back (Brotherston, Gorogiannis and Petersen 2012): a logic says
//! what its rules and links leave to be shown and that each is locally sound; the test of a node, the verdict on a
//! proof and why what is accepted holds follow from that, once for all logics.
#![tactic(auto)]

mod checking;
mod logic;
mod node;
mod node_tests;
mod premises;
mod verdict;

pub use checking::check_proof;
pub use cyc_basics::memory::OutOfMemory;
pub use logic::{Logic, Refused};
pub use node::{Numbers, ProofNode};
pub use premises::{Subgoal, TracePairs};
pub use verdict::Verdict;
