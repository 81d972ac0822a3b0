//! Inductive definitions that are in order, and the bodies of their cases.
#![tactic(auto)]

mod bodies;
mod families;
mod faults;
mod library;

pub use bodies::{Fresh, case_body};
pub use families::{ClosedFamily, least_is_below};
pub use faults::DefFault;
pub use library::Defs;
