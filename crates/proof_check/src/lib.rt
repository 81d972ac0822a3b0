//! Verdicts on proof files: each node by the rule table and the law of links, each path by the trace condition.
#![tactic(auto)]

mod checking;
pub mod laws;

pub use checking::{Verdict, check};
pub use cyc_basics::memory::OutOfMemory;
