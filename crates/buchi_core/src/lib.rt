//! Age forests: a deterministic automaton in the manner of Safra's trees, in order of age, that follows all traces
//! along a path at once.
#![tactic(auto)]

mod age_forest;
mod entry;
mod equality;
mod event;
mod grow;
mod halves;
mod leads;
mod list;
mod masks;
mod settle;
mod stepping;
mod young;

pub use age_forest::AgeForest;
pub use cyc_basics::positions::is_position_set;
pub use entry::Entry;
pub use event::{Event, earlier};
pub use list::entries_in;
pub use stepping::{Stepper, start, step};
