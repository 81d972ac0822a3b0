//! Grammars and trees of the first-order formats, and how they are written: terms and atoms, problems, proofs.
#![tactic(auto)]

pub mod problems;
pub mod proofs;
pub mod terms;
