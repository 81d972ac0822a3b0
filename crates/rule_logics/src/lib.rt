//! Logics that say their rules alone: a link may lead to any node that states the same, so that links, their faults,
//! the places of traces and the search are written once for all of them (Brotherston, Gorogiannis and Petersen 2012).
#![tactic(auto)]

mod by_rules;
mod moved;
mod reasons;
mod rules;
mod search;
pub mod texts;

pub use by_rules::ByRules;
pub use cyc_basics::memory::OutOfMemory;
pub use moved::{moved_pairs, push_moved};
pub use reasons::{NodeFault, Reason};
pub use rules::RuleLogic;
pub use search::{MOST_NODES, prove};
