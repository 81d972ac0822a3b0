//! Satisfiability of symbolic heaps by base pairs (Brotherston, Fuhs, Navarro Pérez and Gorogiannis 2014).
#![tactic(auto)]

mod agenda;
mod atoms;
mod cases;
mod numbers;
mod orders;
mod rounds;
mod stages;
mod tables;
mod turns;

pub use cases::{satisfiable, satisfiable_within};
pub use pair_family::states::StatesFault;
pub use rounds::{Limits, PairFault, base_pairs};
pub use tables::Table;
