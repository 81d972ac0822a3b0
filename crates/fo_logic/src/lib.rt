//! First-order logic with inductive definitions as a logic, and verdicts on proofs in it: each node by the rule table
//! and the law of links, each path by the trace condition.
#![tactic(auto)]

mod checking;
pub mod facts;
mod first_order;
mod laws;
pub mod limits;

pub use checking::{FoVerdict, check_fo};
pub use cyc_basics::memory::OutOfMemory;
pub use first_order::FirstOrder;
pub use fo_formula::table::FoFault;
pub use laws::correct_proofs_hold;
