//! Counter-models of entailments, of bounded size: the first stack and heap that satisfy the antecedent, and no
//! disjunct.
#![tactic(auto)]

pub mod files;
mod first_heaps;
mod first_stacks;
pub mod heaps;
mod laws;
mod orders;
mod refuting;
mod tight_stacks;

pub use crate::heaps::is_universal;
pub use laws::counter_models_refute;
pub use refuting::{Refuted, refute};
