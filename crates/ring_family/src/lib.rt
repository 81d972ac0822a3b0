//! The ring family: cyclic proofs of any size, made from a number, each correct and with as many product states as it
//! has nodes.
#![tactic(auto)]

mod definitions;
mod formulas;
pub mod laws;
mod nodes;
mod ring;

pub use cyc_basics::memory::OutOfMemory;
pub use ring::ring_file;
