//! What is found of a problem: a proof of its goal, a counter-model, or a run that shows that its program does not
//! halt. The searches do as they like; what they find is checked before it is given.
#![tactic(auto)]

mod antecedents;
mod budgets;
mod checking;
mod counter_models;
mod drafts;
mod faulty_runs;
pub mod limits;
mod proofs;
mod reruns;
mod solution;
mod solving;

pub use budgets::{Budget, DEFAULT_EFFORT, MOST_EFFORT};
pub use counter_models::heap_of;
pub use cyc_basics::memory::OutOfMemory;
pub use reruns::is_right;
pub use solution::{FoundProof, ProofSearch, Refutation, Solution};
pub use solving::solve;
