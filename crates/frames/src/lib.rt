//! Frames: what an antecedent holds beside something that is asked for. The texts of questions, and a search for
//! answers.
#![tactic(auto)]

pub mod questions;
pub mod search;

pub use cyc_basics::memory::OutOfMemory;
