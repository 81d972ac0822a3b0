//! Whether a stack and a heap satisfy a formula under the least meaning of any definitions, exactly, also where the
//! heap does not determine the locals of a case (Brotherston, Gorogiannis, Kanovich and Rowe 2016).
#![tactic(auto)]

pub mod derivations;
mod faults;
mod general;
mod grounding;
mod laws;
mod opening;
mod ranges;
mod refuting;
pub mod runs;
mod stacks;

pub use faults::CheckFault;
pub use general::satisfied_in_general;
pub use laws::permutations_keep_stages;
pub use refuting::{none_satisfied, refutes};
