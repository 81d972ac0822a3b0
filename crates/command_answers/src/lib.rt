//! The answers of the commands beside `check` and the searches for proofs: reading, work, and the line or file that is
//! written.
#![tactic(auto)]

pub mod disprove;
pub mod first_order;
pub mod laws;
pub mod model;
pub mod sat;
